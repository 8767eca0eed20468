// PIRER: a question for the self-test code.
ghost use Rattle.fields.specs.Parts.{parts_of};
ghost use Rattle.frame.specs.Written.{fault_at, Writes};
ghost use Rattle.numbers.specs.Told.{Tells};
ghost use Rattle.kind_pir_code.specs.Command.{pirer_body, pirer_fields, pirer_from, pirer_told};

use fields::Fields;
use form::got::Got;
use frame::Written;
use frame::record::Record;
use numbers::Told;

// Lays the record, or refuses the first wrong field.
fn pirer_from(out: &mut [i64], zero: Got) -> Told
    ensures { Tells (pirer_from out.old zero) result out.new }
{
    let w1 = form::keep::near(0, zero.wrong, 0);
    if w1 != 0 {
        return numbers::refuse(5, w1);
    }
    numbers::bare(11)
}

// Reads the fields of a body, and lays the numbers of the record at the start of `out`. Refused: 4 where there are not so many
// fields as the kind has, 5 at the first wrong field, 8 where `out` is shorter than the record; then `out` is left.
//
//     $PIRER,0*40
pub fn read(out: &mut [i64], f: Fields) -> Told
    ensures { Tells (pirer_told out.old f.entry.count (parts_of f.entry)) result out.new }
{
    if f.count != 1 {
        return numbers::refuse(4, 0);
    }
    let zero = form_number::fixed::exact(f.at(1), 1, 0, 0);
    pirer_from(out, zero)
}

// The question has no value.
#[derive(Clone, Copy)]
struct CodeAsked;

impl Record for CodeAsked {
    ghost fault = { λ _. fault_at 0 };

    ghost texts = { λ _. pirer_fields };

    fn fault(self) -> Written {
        frame::fault(0)
    }

    fn put_fields(self, out: &mut [u8], at: usize) -> usize {
        form_number::text::one(out, at, 0u32)
    }
}

// Writes the line into `out`, and answers its length. Refused: 8 where `out` is shorter than the line.
//
//     $PIRER,0*40
pub fn write(out: &mut [u8]) -> Written
    ensures { Writes (fault_at 0) pirer_body out.old result out.new }
{
    frame::record::write_maker(out, b"PIRER", CodeAsked)
}
