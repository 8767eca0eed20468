// Records read and written by a host, as numbers.
ghost use Rattle.std.specs.Prelude.{◌≡◌};
ghost use Rattle.sentence.specs.Lines.{read_line};
ghost use Rattle.sentence.specs.ToHost.{told_for, laid_for};
ghost use Rattle.sentence.specs.FromHost.{written_as, left_as};
ghost use Rattle.host.specs.Answer.{set_at, single_line};

use crate::answers;

// Reads `line` to its record, stores the record's numbers at the start of `numbers`, sets `kind` to its kind and answers 0. Else
// `kind` and `numbers` are left, and the answer is the refusal of the line, or 8 where `numbers` is too short. `at_line` and `field`
// are set to those of the refusal, 1 and its field for a line's own, or to 0.
pub fn castanwel_read(
    line: &[u8],
    numbers: &mut [i64],
    kind: &mut u32,
    at_line: &mut usize,
    field: &mut usize,
) -> u8
    ensures value { result ≡ (told_for (read_line line.now) numbers.old).no }
    ensures kind_after { kind.new ≡ set_at (told_for (read_line line.now) numbers.old).no
        (told_for (read_line line.now) numbers.old).kind kind.old }
    ensures at_line_after { at_line.new ≡ single_line (told_for (read_line line.now) numbers.old).no }
    ensures field_after { field.new ≡ (told_for (read_line line.now) numbers.old).field }
    ensures numbers_after { numbers.new ≡ laid_for (read_line line.now) numbers.old }
{
    let told = sentence::read(line, numbers);
    *kind = answers::kept(told.no, told.kind, *kind);
    *at_line = answers::single_line(told.no);
    *field = told.field;
    told.no
}

// Writes the line of the record of a kind that `numbers` say into `out`, sets `length` to its length and
// answers 0. Else `length` and `out` are left, and the answer is the refusal with its `line` and `field`: 5 for
// too few numbers and 3 for what is no kind or no talker, both on line 0; 5 on line 1 in field 1 for a GPS mask
// that 32 bits do not hold; or as the kind's writer does.
pub fn castanwel_write(
    kind: u32,
    numbers: &[i64],
    out: &mut [u8],
    length: &mut usize,
    line: &mut usize,
    field: &mut usize,
) -> u8
    ensures value { result ≡ (written_as kind numbers.now out.old).no }
    ensures length_after { length.new ≡ set_at (written_as kind numbers.now out.old).no
        (written_as kind numbers.now out.old).length length.old }
    ensures line_after { line.new ≡ (written_as kind numbers.now out.old).line }
    ensures field_after { field.new ≡ (written_as kind numbers.now out.old).field }
    ensures out_after { out.new ≡ left_as kind numbers.now out.old }
{
    let written = sentence::write(kind, numbers, out);
    *length = answers::kept(written.no, written.length, *length);
    *line = written.line;
    *field = written.field;
    written.no
}
