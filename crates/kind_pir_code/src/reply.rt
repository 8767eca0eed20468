// PIREA: the self-test code.
ghost use Rattle.std.specs.Prelude.{◌≡◌};
ghost use Rattle.fields.specs.Parts.{parts_of};
ghost use Rattle.frame.specs.Written.{fault_at, Writes};
ghost use Rattle.numbers.specs.Told.{gives, Tells};
ghost use Rattle.kind_pir_code.specs.Reply.{pirea_at, pirea_body, pirea_fields, pirea_from, pirea_numbers, pirea_told, pirea_wrong};

use fields::Fields;
use form::got::Got;
use frame::Written;
use frame::record::Record;
use numbers::Told;

#[derive(Clone, Copy)]
pub struct CodeTold {
    pub code: u32,
}

// Lays the numbers of a record, in the order of docs/LAYOUT.md.
fn lay(out: &mut [i64], r: CodeTold) -> Told
    ensures { Tells (gives out.old 15 (pirea_numbers r)) result out.new }
{
    let v = [r.code as i64];
    numbers::tell(out, 15, &v)
}

// The record that numbers say; a number past the end is taken as 0.
pub fn at(n: &[i64]) -> CodeTold
    ensures { result ≡ pirea_at n.now }
{
    CodeTold {
        code: numbers::whole_at(n, 0),
    }
}

// Lays the record, or refuses the first wrong field.
fn pirea_from(out: &mut [i64], code: Got) -> Told
    ensures { Tells (pirea_from out.old code) result out.new }
{
    let w1 = form::keep::near(0, code.wrong, 0);
    if w1 != 0 {
        return numbers::refuse(5, w1);
    }
    lay(out, CodeTold { code: code.value })
}

// Reads the fields of a body, and lays the numbers of the record at the start of `out`. Refused: 4 where there are not so many
// fields as the kind has, 5 at the first wrong field, 8 where `out` is shorter than the record; then `out` is left.
//
//     $PIREA,0*53
pub fn read(out: &mut [i64], f: Fields) -> Told
    ensures { Tells (pirea_told out.old f.entry.count (parts_of f.entry)) result out.new }
{
    if f.count != 1 {
        return numbers::refuse(4, 0);
    }
    let code = form_mask::plain::code(f.at(1));
    pirea_from(out, code)
}

// The first value outside its range, by the number of its field, or 0.
fn wrong(r: CodeTold) -> usize
    ensures { result ≡ pirea_wrong r }
{
    form::keep::near(0, form::range::within(r.code, 0, 255), 0)
}

impl Record for CodeTold {
    ghost fault = { λ r. fault_at (pirea_wrong r) };

    ghost texts = { pirea_fields };

    fn fault(self) -> Written {
        frame::fault(wrong(self))
    }

    fn put_fields(self, out: &mut [u8], at: usize) -> usize {
        form_mask::text::plain(out, at, self.code)
    }
}

// Writes the line of a record into `out`, and answers its length. Refused: 5 at the first value outside its
// range, 8 where `out` is shorter than the line.
//
//     $PIREA,0*53
pub fn write(out: &mut [u8], r: CodeTold) -> Written
    ensures { Writes (fault_at (pirea_wrong r)) (pirea_body r) out.old result out.new }
{
    frame::record::write_maker(out, b"PIREA", r)
}
