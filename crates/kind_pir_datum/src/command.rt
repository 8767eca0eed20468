// PIRTR: datum and zone; without a datum a question.
ghost use Rattle.std.specs.Prelude.{◌≡◌};
ghost use Rattle.fields.specs.Parts.{parts_of};
ghost use Rattle.frame.specs.Written.{fault_at, Writes};
ghost use Rattle.numbers.specs.Told.{gives, Tells};
ghost use Rattle.kind_pir_datum.specs.Command.{pirtr_at, pirtr_body, pirtr_fields, pirtr_from, pirtr_numbers, pirtr_told, pirtr_wrong};

use fields::Fields;
use form::Maybe;
use form::from_numbers::FromNumbers;
use form::got::{Got, GotInt};
use form_date::Zone;
use frame::Written;
use frame::record::Record;
use numbers::Told;

// Datum and zone to set, or, where the datum is missing, a question.
#[derive(Clone, Copy)]
pub struct DatumAsked {
    pub datum: Maybe,
    pub zone: Zone,
}

// Lays the numbers of a record, in the order of docs/LAYOUT.md.
fn lay(out: &mut [i64], r: DatumAsked) -> Told
    ensures { Tells (gives out.old 9 (pirtr_numbers r)) result out.new }
{
    let v = [
        r.datum.there as i64,
        r.datum.value as i64,
        r.zone.there as i64,
        r.zone.minutes as i64,
    ];
    numbers::tell(out, 9, &v)
}

// The record that numbers say; a number past the end is taken as 0.
pub fn at(n: &[i64]) -> DatumAsked
    ensures { result ≡ pirtr_at n.now }
{
    DatumAsked {
        datum: Maybe::at(n, 0),
        zone: Zone::at(n, 2),
    }
}

// Lays the record, or refuses the first wrong field.
fn pirtr_from(out: &mut [i64], datum: Got, zone: GotInt) -> Told
    ensures { Tells (pirtr_from out.old datum zone) result out.new }
{
    let zone_wrong = form::keep::needed_int(datum.there, zone);
    let w2 = form::keep::near(1, zone_wrong, 0);
    let w1 = form::keep::near(0, datum.wrong, w2);
    if w1 != 0 {
        return numbers::refuse(5, w1);
    }
    lay(
        out,
        DatumAsked {
            datum: datum.into(),
            zone: form_date::keep::zoned_if(datum.there, zone),
        },
    )
}

// Reads the fields of a body, and lays the numbers of the record at the start of `out`. Refused: 4 where there are not so many
// fields as the kind has, 5 at the first wrong field, 8 where `out` is shorter than the record; then `out` is left.
//
//     $PIRTR,0,0300*7E
pub fn read(out: &mut [i64], f: Fields) -> Told
    ensures { Tells (pirtr_told out.old f.entry.count (parts_of f.entry)) result out.new }
{
    if f.count != 2 {
        return numbers::refuse(4, 0);
    }
    let datum = form_number::fixed::fixed(f.at(1), 1, 0, 4);
    let zone = form_date::zones::four(f.at(2));
    pirtr_from(out, datum, zone)
}

// The first value outside its range, by the number of its field, or 0.
fn wrong(r: DatumAsked) -> usize
    ensures { result ≡ pirtr_wrong r }
{
    let w2 = form::keep::near(
        1,
        form::range::alike(
            r.datum.there,
            r.zone.there,
            form::range::signed(r.zone.there, r.zone.minutes, 839),
        ),
        0,
    );
    form::keep::near(0, form::range::maybe(r.datum, 0, 4), w2)
}

impl Record for DatumAsked {
    ghost fault = { λ r. fault_at (pirtr_wrong r) };

    ghost texts = { pirtr_fields };

    fn fault(self) -> Written {
        frame::fault(wrong(self))
    }

    fn put_fields(self, out: &mut [u8], at: usize) -> usize {
        let a0 = form_number::text::one(out, at, self.datum);
        form_date::text::zone_four(out, a0, self.zone)
    }
}

// Writes the line of a record into `out`, and answers its length. Refused: 5 at the first value outside its
// range, 8 where `out` is shorter than the line.
//
//     $PIRTR,0,0300*7E
pub fn write(out: &mut [u8], r: DatumAsked) -> Written
    ensures { Writes (fault_at (pirtr_wrong r)) (pirtr_body r) out.old result out.new }
{
    frame::record::write_maker(out, b"PIRTR", r)
}
