// A time of day put behind its comma.
ghost use Rattle.std.specs.Prelude.{◌%◌, ◌/◌, [], ◌++◌, ◌∷◌};
ghost use Rattle.digits.specs.Decimal.{print_fixed};
ghost use Rattle.put.specs.Wrote.{held, Puts, PutsFields};
ghost use Rattle.form.specs.Values.{maybe_text};
ghost use Rattle.form_time.specs.Time.{clock_text};

use form::sent::Sent;

// `56.00`: seconds and hundredths of a second.
fn put_seconds(out: &mut [u8], at: usize, v: u32) -> usize
    ensures { Puts (held at out.old) (print_fixed 2 (v / 100 % 60) ++ (46 ∷ print_fixed 2 (v % 100)))
        (held result out.new) }
{
    let a0 = put::put_two(out, at, v / 100 % 60);
    let a1 = put::put(out, a0, 46);
    put::put_two(out, a1, v % 100)
}

fn put_clock(out: &mut [u8], at: usize, v: u32) -> usize
    ensures { Puts (held at out.old) (clock_text v) (held result out.new) }
{
    let a0 = put::put_two(out, at, v / 360000);
    let a1 = put::put_two(out, a0, v / 6000 % 60);
    put_seconds(out, a1, v)
}

// `123456.00`: a time in hundredths of a second.
pub fn time<T: Sent>(out: &mut [u8], at: usize, v: T) -> usize
    ensures { PutsFields (held at out.old) (maybe_text clock_text (T.sent v) ∷ []) (held result out.new) }
{
    let m = v.sent();
    let a = put::put(out, at, 44);
    if m.there {
        return put_clock(out, a, m.value);
    }
    a
}
