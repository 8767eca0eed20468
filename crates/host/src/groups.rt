// Groups of satellites as Rust or C reads and writes them, as 254 numbers.
ghost use Rattle.std.specs.Prelude.{◌≡◌};
ghost use Rattle.sky.specs.Group.{group_of};
ghost use Rattle.host.specs.Answer.{set_at};
ghost use Rattle.host.specs.Group.{group_put, handed};

use crate::answers;
use frame::Written;

// Reads the lines in `s` as a group, and returns the number of its refusal, 0 where it is a whole sky. Then its
// 254 numbers stand at the start of `numbers`; 8 where that is too short. `line` and `field` are set to those of the
// refusal, or to 0. A refusal leaves `numbers`.
pub fn castanwel_read_group(
    s: &[u8],
    numbers: &mut [i64],
    line: &mut usize,
    field: &mut usize,
) -> u8
    ensures value { result ≡ (handed (group_of s.now) numbers.old).no }
    ensures line_after { line.new ≡ (handed (group_of s.now) numbers.old).line }
    ensures field_after { field.new ≡ (handed (group_of s.now) numbers.old).field }
    ensures numbers_after { numbers.new ≡ (handed (group_of s.now) numbers.old).numbers }
{
    let sky = sky_read::read(s);
    *line = sky.line;
    *field = sky.field;
    let Some(t) = sky.talker else {
        return sky.no;
    };
    if sky_numbers::lay(numbers, t, sky.table) {
        return 0;
    }
    8
}

// Writes the group that 254 numbers say. Refused: 5 where there are fewer, then 3 for a talker's number over 4,
// both with line 0; then as `sky_write::write` does.
fn write_numbers(numbers: &[i64], out: &mut [u8]) -> Written
    ensures value { result ≡ (group_put numbers.now out.old).answer }
    ensures out_after { out.new ≡ (group_put numbers.now out.old).out }
{
    if numbers.len() < 254 {
        return frame::refuse(5, 0, 0);
    }
    let n = numbers::whole_at(numbers, 0);
    if 4 < n {
        return frame::refuse(3, 0, 0);
    }
    sky_write::write(out, numbers::talker_of(n), sky_numbers::table_at(numbers))
}

// Writes the group that `numbers` say into `out`, and returns the number of its refusal, 0 where it was written.
// `length` is set to the length of what was written, `line` and `field` to those of the refusal, or to 0. A refusal leaves
// `out` and `length`.
pub fn castanwel_write_group(
    numbers: &[i64],
    out: &mut [u8],
    length: &mut usize,
    line: &mut usize,
    field: &mut usize,
) -> u8
    ensures value { result ≡ (group_put numbers.now out.old).answer.no }
    ensures length_after { length.new ≡ set_at (group_put numbers.now out.old).answer.no
        (group_put numbers.now out.old).answer.length length.old }
    ensures line_after { line.new ≡ (group_put numbers.now out.old).answer.line }
    ensures field_after { field.new ≡ (group_put numbers.now out.old).answer.field }
    ensures out_after { out.new ≡ (group_put numbers.now out.old).out }
{
    let written = write_numbers(numbers, out);
    *length = answers::kept(written.no, written.length, *length);
    *line = written.line;
    *field = written.field;
    written.no
}
