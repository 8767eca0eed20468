// PIRSA: the GPS and GLONASS masks.
ghost use Rattle.std.specs.Prelude.{◌≡◌};
ghost use Rattle.fields.specs.Parts.{parts_of};
ghost use Rattle.frame.specs.Written.{fault_at, Writes};
ghost use Rattle.numbers.specs.Told.{gives, Tells};
ghost use Rattle.kind_pir_masks.specs.Reply.{pirsa_at, pirsa_body, pirsa_fields, pirsa_from, pirsa_numbers, pirsa_told, pirsa_wrong};

use fields::Fields;
use form::got::Got;
use frame::Written;
use frame::record::Record;
use numbers::Told;

#[derive(Clone, Copy)]
pub struct MasksTold {
    pub gps: u32,
    pub glonass: u32,
}

// Lays the numbers of a record, in the order of docs/LAYOUT.md.
fn lay(out: &mut [i64], r: MasksTold) -> Told
    ensures { Tells (gives out.old 14 (pirsa_numbers r)) result out.new }
{
    let v = [r.gps as i64, r.glonass as i64];
    numbers::tell(out, 14, &v)
}

// The record that numbers say; a number past the end is taken as 0.
pub fn at(n: &[i64]) -> MasksTold
    ensures { result ≡ pirsa_at n.now }
{
    MasksTold {
        gps: numbers::whole_at(n, 0),
        glonass: numbers::whole_at(n, 1),
    }
}

// Lays the record, or refuses the first wrong field.
fn pirsa_from(out: &mut [i64], gps: Got, glonass: Got, third: u8) -> Told
    ensures { Tells (pirsa_from out.old gps glonass third) result out.new }
{
    let w3 = form::keep::near(2, third, 0);
    let w2 = form::keep::near(1, glonass.wrong, w3);
    let w1 = form::keep::near(0, gps.wrong, w2);
    if w1 != 0 {
        return numbers::refuse(5, w1);
    }
    lay(
        out,
        MasksTold {
            gps: gps.value,
            glonass: glonass.value,
        },
    )
}

// Reads the fields of a body, and lays the numbers of the record at the start of `out`. Refused: 4 where there are not so many
// fields as the kind has, 5 at the first wrong field, 8 where `out` is shorter than the record; then `out` is left.
//
//     $PIRSA,7FFEFFFF,FFFFFE,*04
pub fn read(out: &mut [i64], f: Fields) -> Told
    ensures { Tells (pirsa_told out.old f.entry.count (parts_of f.entry)) result out.new }
{
    if f.count != 3 {
        return numbers::refuse(4, 0);
    }
    let gps = form_mask::read::whole(f.at(1), 8);
    let glonass = form_mask::read::whole(f.at(2), 6);
    let third = form::unit::empty(f.at(3));
    pirsa_from(out, gps, glonass, third)
}

// The first value outside its range, by the number of its field, or 0.
fn wrong(r: MasksTold) -> usize
    ensures { result ≡ pirsa_wrong r }
{
    let w2 = form::keep::near(1, form::range::within(r.glonass, 0, 16777215), 0);
    form::keep::near(0, form::range::within(r.gps, 0, 4294967295), w2)
}

impl Record for MasksTold {
    ghost fault = { λ r. fault_at (pirsa_wrong r) };

    ghost texts = { pirsa_fields };

    fn fault(self) -> Written {
        frame::fault(wrong(self))
    }

    fn put_fields(self, out: &mut [u8], at: usize) -> usize {
        let a0 = form_mask::text::eight(out, at, self.gps);
        let a1 = form_mask::text::six(out, a0, self.glonass);
        form::text::empty(out, a1)
    }
}

// Writes the line of a record into `out`, and answers its length. Refused: 5 at the first value outside its
// range, 8 where `out` is shorter than the line.
//
//     $PIRSA,7FFEFFFF,FFFFFE,*04
pub fn write(out: &mut [u8], r: MasksTold) -> Written
    ensures { Writes (fault_at (pirsa_wrong r)) (pirsa_body r) out.old result out.new }
{
    frame::record::write_maker(out, b"PIRSA", r)
}
