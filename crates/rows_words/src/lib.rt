// A row of the listing in words. Each function writes into a lent buffer from the place `at` on, as far as there is room, and
// answers the next place.
#![tactic(auto)]

ghost use Rattle.put.specs.Wrote.{held, Puts};
ghost use Rattle.sentence.specs.Lines.{read_line};
ghost use Rattle.rows_words.specs.Worded.{place_text, reason_row, told_worded, worded_text};

use numbers::Told;

// `611 12 `: the bytes before a line, and the number of its row in the file.
fn put_place(out: &mut [u8], at: usize, offset: u64, row: u64) -> usize
    ensures { Puts (held at out.old) (place_text offset row) (held result out.new) }
{
    let a1 = text::put_number(out, at, offset);
    let a2 = put::put(out, a1, b' ');
    let a3 = text::put_number(out, a2, row);
    put::put(out, a3, b' ')
}

// The row that says why a line was refused; nothing where it was not.
fn put_reason(out: &mut [u8], at: usize, line: &[u8], no: u8, field: usize) -> usize
    ensures { Puts (held at out.old) (reason_row line.now no field) (held result out.new) }
{
    if no == 0 {
        return at;
    }
    let a0 = put::put_bytes(out, at, b"    ");
    let a1 = reasons::put_reason(out, a0, line, no, field);
    put::put(out, a1, b'\n')
}

// The row of line `number` in words, of which `told` was told: behind the place, with `offset` bytes before it in row `row` of the
// file; of a refused line with the row that says why.
pub fn put_told(
    out: &mut [u8],
    at: usize,
    offset: u64,
    row: u64,
    number: u64,
    line: &[u8],
    told: Told,
) -> usize
    ensures { Puts (held at out.old) (told_worded offset row number line.now told)
        (held result out.new) }
{
    let numbers = [0i64; 1];
    let a1 = put_place(out, at, offset, row);
    let a2 = rows::put_row(out, a1, number, line, told, &numbers, false);
    put_reason(out, a2, line, told.no, told.field)
}
