// PIRSR: the GPS and GLONASS masks; an empty one is not changed.
ghost use Rattle.std.specs.Prelude.{◌≡◌};
ghost use Rattle.fields.specs.Parts.{parts_of};
ghost use Rattle.frame.specs.Written.{fault_at, Writes};
ghost use Rattle.numbers.specs.Told.{gives, Tells};
ghost use Rattle.kind_pir_masks.specs.Command.{pirsr_at, pirsr_body, pirsr_fields, pirsr_from, pirsr_numbers, pirsr_told, pirsr_wrong};

use fields::Fields;
use form::Maybe;
use form::from_numbers::FromNumbers;
use form::got::Got;
use frame::Written;
use frame::record::Record;
use numbers::Told;

// Satellite masks to set; a missing one is not changed.
#[derive(Clone, Copy)]
pub struct MasksAsked {
    pub gps: Maybe,
    pub glonass: Maybe,
}

// Lays the numbers of a record, in the order of docs/LAYOUT.md.
fn lay(out: &mut [i64], r: MasksAsked) -> Told
    ensures { Tells (gives out.old 10 (pirsr_numbers r)) result out.new }
{
    let v = [
        r.gps.there as i64,
        r.gps.value as i64,
        r.glonass.there as i64,
        r.glonass.value as i64,
    ];
    numbers::tell(out, 10, &v)
}

// The record that numbers say; a number past the end is taken as 0.
pub fn at(n: &[i64]) -> MasksAsked
    ensures { result ≡ pirsr_at n.now }
{
    MasksAsked {
        gps: Maybe::at(n, 0),
        glonass: Maybe::at(n, 2),
    }
}

// Lays the record, or refuses the first wrong field.
fn pirsr_from(out: &mut [i64], gps: Got, glonass: Got, third: u8) -> Told
    ensures { Tells (pirsr_from out.old gps glonass third) result out.new }
{
    let w3 = form::keep::near(2, third, 0);
    let w2 = form::keep::near(1, glonass.wrong, w3);
    let w1 = form::keep::near(0, gps.wrong, w2);
    if w1 != 0 {
        return numbers::refuse(5, w1);
    }
    lay(
        out,
        MasksAsked {
            gps: gps.into(),
            glonass: glonass.into(),
        },
    )
}

// Reads the fields of a body, and lays the numbers of the record at the start of `out`. Refused: 4 where there are not so many
// fields as the kind has, 5 at the first wrong field, 8 where `out` is shorter than the record; then `out` is left.
//
//     $PIRSR,7FFEFFFF,FFFFFE,*17
pub fn read(out: &mut [i64], f: Fields) -> Told
    ensures { Tells (pirsr_told out.old f.entry.count (parts_of f.entry)) result out.new }
{
    if f.count != 3 {
        return numbers::refuse(4, 0);
    }
    let gps = form_mask::read::satellites(f.at(1), 8);
    let glonass = form_mask::read::satellites(f.at(2), 6);
    let third = form::unit::empty(f.at(3));
    pirsr_from(out, gps, glonass, third)
}

// The first value outside its range, by the number of its field, or 0.
fn wrong(r: MasksAsked) -> usize
    ensures { result ≡ pirsr_wrong r }
{
    let w2 = form::keep::near(1, form::range::maybe(r.glonass, 0, 16777215), 0);
    form::keep::near(0, form::range::maybe(r.gps, 0, 4294967295), w2)
}

impl Record for MasksAsked {
    ghost fault = { λ r. fault_at (pirsr_wrong r) };

    ghost texts = { pirsr_fields };

    fn fault(self) -> Written {
        frame::fault(wrong(self))
    }

    fn put_fields(self, out: &mut [u8], at: usize) -> usize {
        let a0 = form_mask::text::eight(out, at, self.gps);
        let a1 = form_mask::text::six(out, a0, self.glonass);
        form::text::empty(out, a1)
    }
}

// Writes the line of a record into `out`, and answers its length. Refused: 5 at the first value outside its
// range, 8 where `out` is shorter than the line.
//
//     $PIRSR,7FFEFFFF,FFFFFE,*17
pub fn write(out: &mut [u8], r: MasksAsked) -> Written
    ensures { Writes (fault_at (pirsr_wrong r)) (pirsr_body r) out.old result out.new }
{
    frame::record::write_maker(out, b"PIRSR", r)
}
