// The library's functions as Rust or C calls them, on numbers and lent bytes: host_c exports each for C.
#![tactic(auto)]

mod answers;
pub mod commands;
pub mod cuts;
pub mod groups;
pub mod indexes;
pub mod sentences;

ghost use Rattle.std.specs.Prelude.{◌≡◌};
ghost use Rattle.line.specs.Line.{line_refusal};
ghost use Rattle.finder.specs.Finder.{held_next, ends_here};
ghost use Rattle.finder.specs.Slice.{found_at};
ghost use Rattle.fields.specs.Places.{Placed};
ghost use Rattle.fields.specs.FieldN.{field_at};
ghost use Rattle.sentence.specs.Lines.{read_line, refusal_of};
ghost use Rattle.host.specs.Answer.{set_at, single_line};

// What the line rule says of `line`: 0 where it is a line, 1 where the rule fails, 2 where the two
// digits differ from the XOR of the body.
pub fn castanwel_line_refusal(line: &[u8]) -> u8
    ensures { result ≡ line_refusal line.now }
{
    line::line_refusal(line)
}

// Whether `s` has a line from `at` on. The first one lies from `start` up to `end`. Where there is none, `end` is the end
// of `s`, or `at` where that lies beyond it, and an unfinished line begins at `start`, which is `end` where nothing is.
pub fn castanwel_next_line(s: &[u8], at: usize, start: &mut usize, end: &mut usize) -> bool
    ensures value { result ≡ (found_at s.now at).line }
    ensures start_after { start.new ≡ (found_at s.now at).start }
    ensures end_after { end.new ≡ (found_at s.now at).end }
{
    let found = finder::next_line(s, at);
    *start = found.start;
    *end = found.end;
    found.line
}

// Feeds the byte `b` to a finder that holds `held` bytes, and returns how many it holds next. `line` is
// set to the length of the line that `b` ends, or to 0 where it ends none.
pub fn castanwel_feed(held: usize, b: u8, line: &mut usize) -> usize
    ensures value { result ≡ held_next held b }
    ensures line_after { line.new ≡ ends_here held b }
{
    let fed = finder::feed(held, b);
    *line = fed.line;
    fed.held
}

// How many fields the body of a line has, the address among them. The place where each ends is stored in
// `ends`, one after another, as far as there is room.
pub fn castanwel_places(body: &[u8], ends: &mut [usize]) -> usize
    ensures { Placed body.now ends.old result ends.new }
{
    fields::places(body, ends)
}

// Sets `start` and `end` to where field `n` after the address starts and ends in `line`, and returns 0; else both are left, and the
// answer is 1 to 3, or 4 where there is no field n. `at_line` is set to the line of the refusal, 1, or to 0, and `field` to 0.
//
//     $GPGSV,1,1,01,05,,,*7D    field 4 is 05, from 14 up to 16
pub fn castanwel_field(
    line: &[u8],
    n: usize,
    start: &mut usize,
    end: &mut usize,
    at_line: &mut usize,
    field: &mut usize,
) -> u8
    ensures value { result ≡ (field_at line.now n).no }
    ensures start_after { start.new ≡ set_at (field_at line.now n).no
        (field_at line.now n).start start.old }
    ensures end_after { end.new ≡ set_at (field_at line.now n).no
        (field_at line.now n).end end.old }
    ensures at_line_after { at_line.new ≡ single_line (field_at line.now n).no }
    ensures field_after { field.new ≡ 0 }
{
    let part = fields::field_at(line, n);
    *start = answers::kept(part.no, part.start, *start);
    *end = answers::kept(part.no, part.end, *end);
    *at_line = answers::single_line(part.no);
    *field = 0;
    part.no
}

// Reads `line` to its record, and returns the number of its refusal, 0 where it reads. `at_line` is set to its line, 1, and
// `field` to its field; each to 0 where there is none.
pub fn castanwel_refusal(line: &[u8], at_line: &mut usize, field: &mut usize) -> u8
    ensures value { result ≡ (refusal_of (read_line line.now)).no }
    ensures at_line_after { at_line.new ≡ single_line (refusal_of (read_line line.now)).no }
    ensures field_after { field.new ≡ (refusal_of (read_line line.now)).field }
{
    let mut n = [0i64; 33];
    let told = sentence::read(line, &mut n);
    *at_line = answers::single_line(told.no);
    *field = told.field;
    told.no
}
