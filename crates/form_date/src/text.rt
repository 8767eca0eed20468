// Dates and zones.
ghost use Rattle.std.specs.Prelude.{◌%◌, [], ◌∷◌};
ghost use Rattle.put.specs.Wrote.{held, Puts, PutsFields};
ghost use Rattle.form.specs.Values.{if_there};
ghost use Rattle.form_date.specs.Dates.{six_text};
ghost use Rattle.form_date.specs.Values.{day_field, hours_field, minutes_field, month_field, six_field, year_field};
ghost use Rattle.form_date.specs.Zone.{four_text, hours_text};

use crate::{Date, Zone, split};
use form::Maybe;

fn put_six(out: &mut [u8], at: usize, day: u32, month: u32, year: u32) -> usize
    ensures { Puts (held at out.old) (six_text day month year) (held result out.new) }
{
    let a0 = put::put_two(out, at, day);
    let a1 = put::put_two(out, a0, month);
    put::put_two(out, a1, year % 100)
}

// `150624`: a date in one field.
pub fn six(out: &mut [u8], at: usize, d: Date) -> usize
    ensures { PutsFields (held at out.old) (six_field d ∷ []) (held result out.new) }
{
    let a = put::put(out, at, 44);
    if d.there {
        return put_six(out, a, d.day, d.month, d.year);
    }
    a
}

// `15,06,2024`: a date in three fields.
pub fn three(out: &mut [u8], at: usize, d: Date) -> usize
    ensures { PutsFields (held at out.old) (day_field d ∷ month_field d ∷ year_field d ∷ []) (held result out.new) }
{
    let there = d.there;
    let a0 = form_number::text::two(
        out,
        at,
        Maybe {
            there,
            value: d.day,
        },
    );
    let a1 = form_number::text::two(
        out,
        a0,
        Maybe {
            there,
            value: d.month,
        },
    );
    form_number::text::four(
        out,
        a1,
        Maybe {
            there,
            value: d.year,
        },
    )
}

fn put_hours(out: &mut [u8], at: usize, z: i32) -> usize
    ensures { Puts (held at out.old) (hours_text z) (held result out.new) }
{
    let a = put::put_sign(out, at, z);
    put::put_two(out, a, split::hours(z))
}

fn put_zone(out: &mut [u8], at: usize, z: i32) -> usize
    ensures { Puts (held at out.old) (four_text z) (held result out.new) }
{
    let a = put_hours(out, at, z);
    put::put_two(out, a, split::minutes(z))
}

// `-0330`: a zone in one field.
pub fn zone_four(out: &mut [u8], at: usize, z: Zone) -> usize
    ensures { PutsFields (held at out.old) (if_there z.there (four_text z.minutes) ∷ []) (held result out.new) }
{
    let a = put::put(out, at, 44);
    if z.there {
        return put_zone(out, a, z.minutes);
    }
    a
}

// `-03`
fn hours(out: &mut [u8], at: usize, z: Zone) -> usize
    ensures { PutsFields (held at out.old) (hours_field z ∷ []) (held result out.new) }
{
    let a = put::put(out, at, 44);
    if z.there {
        return put_hours(out, a, z.minutes);
    }
    a
}

// `-03,30`: a zone in two fields.
pub fn zone(out: &mut [u8], at: usize, z: Zone) -> usize
    ensures { PutsFields (held at out.old) (hours_field z ∷ minutes_field z ∷ []) (held result out.new) }
{
    let a = hours(out, at, z);
    let value = split::minutes(z.minutes);
    form_number::text::two(
        out,
        a,
        Maybe {
            there: z.there,
            value,
        },
    )
}
