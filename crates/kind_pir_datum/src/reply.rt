// PIRTA: datum and zone.
ghost use Rattle.std.specs.Prelude.{◌≡◌};
ghost use Rattle.fields.specs.Parts.{parts_of};
ghost use Rattle.frame.specs.Written.{fault_at, Writes};
ghost use Rattle.numbers.specs.Told.{gives, Tells};
ghost use Rattle.kind_pir_datum.specs.Reply.{pirta_at, pirta_body, pirta_fields, pirta_from, pirta_numbers, pirta_told, pirta_wrong};

use fields::Fields;
use form::got::{Got, GotInt};
use form_date::Zone;
use frame::Written;
use frame::record::Record;
use numbers::Told;

#[derive(Clone, Copy)]
pub struct DatumTold {
    pub datum: u32,
    pub zone: i32,
}

// Lays the numbers of a record, in the order of docs/LAYOUT.md.
fn lay(out: &mut [i64], r: DatumTold) -> Told
    ensures { Tells (gives out.old 13 (pirta_numbers r)) result out.new }
{
    let v = [r.datum as i64, r.zone as i64];
    numbers::tell(out, 13, &v)
}

// The record that numbers say; a number past the end is taken as 0.
pub fn at(n: &[i64]) -> DatumTold
    ensures { result ≡ pirta_at n.now }
{
    DatumTold {
        datum: numbers::whole_at(n, 0),
        zone: numbers::signed_at(n, 1),
    }
}

// Lays the record, or refuses the first wrong field.
fn pirta_from(out: &mut [i64], datum: Got, zone: GotInt) -> Told
    ensures { Tells (pirta_from out.old datum zone) result out.new }
{
    let zone_wrong = form::keep::needed_int(true, zone);
    let w2 = form::keep::near(1, zone_wrong, 0);
    let w1 = form::keep::near(0, datum.wrong, w2);
    if w1 != 0 {
        return numbers::refuse(5, w1);
    }
    lay(
        out,
        DatumTold {
            datum: datum.value,
            zone: zone.value,
        },
    )
}

// Reads the fields of a body, and lays the numbers of the record at the start of `out`. Refused: 4 where there are not so many
// fields as the kind has, 5 at the first wrong field, 8 where `out` is shorter than the record; then `out` is left.
//
//     $PIRTA,0,0300*6D
pub fn read(out: &mut [i64], f: Fields) -> Told
    ensures { Tells (pirta_told out.old f.entry.count (parts_of f.entry)) result out.new }
{
    if f.count != 2 {
        return numbers::refuse(4, 0);
    }
    let datum = form_number::fixed::exact(f.at(1), 1, 0, 4);
    let zone = form_date::zones::four(f.at(2));
    pirta_from(out, datum, zone)
}

// The first value outside its range, by the number of its field, or 0.
fn wrong(r: DatumTold) -> usize
    ensures { result ≡ pirta_wrong r }
{
    let w2 = form::keep::near(1, form::range::signed(true, r.zone, 839), 0);
    form::keep::near(0, form::range::within(r.datum, 0, 4), w2)
}

impl Record for DatumTold {
    ghost fault = { λ r. fault_at (pirta_wrong r) };

    ghost texts = { pirta_fields };

    fn fault(self) -> Written {
        frame::fault(wrong(self))
    }

    fn put_fields(self, out: &mut [u8], at: usize) -> usize {
        let a0 = form_number::text::one(out, at, self.datum);
        let zone = Zone {
            there: true,
            minutes: self.zone,
        };
        form_date::text::zone_four(out, a0, zone)
    }
}

// Writes the line of a record into `out`, and answers its length. Refused: 5 at the first value outside its
// range, 8 where `out` is shorter than the line.
//
//     $PIRTA,0,0300*6D
pub fn write(out: &mut [u8], r: DatumTold) -> Written
    ensures { Writes (fault_at (pirta_wrong r)) (pirta_body r) out.old result out.new }
{
    frame::record::write_maker(out, b"PIRTA", r)
}
