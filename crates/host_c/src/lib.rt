// The library's functions for C: each is exported under its name, calls host's function of that name and says its clauses again.
#![tactic(auto)]

mod commands;
mod cuts;
mod groups;
mod indexes;
mod sentences;

ghost use Rattle.std.specs.Prelude.{◌≡◌};
ghost use Rattle.line.specs.Line.{line_refusal};
ghost use Rattle.finder.specs.Finder.{held_next, ends_here};
ghost use Rattle.finder.specs.Slice.{found_at};
ghost use Rattle.fields.specs.Places.{Placed};
ghost use Rattle.fields.specs.FieldN.{field_at};
ghost use Rattle.sentence.specs.Lines.{read_line, refusal_of};
ghost use Rattle.host.specs.Answer.{set_at, single_line};

#[unsafe(no_mangle)]
pub extern "C" fn castanwel_line_refusal(line: &[u8]) -> u8
    ensures { result ≡ line_refusal line.now }
{
    host::castanwel_line_refusal(line)
}

#[unsafe(no_mangle)]
pub extern "C" fn castanwel_next_line(
    s: &[u8],
    at: usize,
    start: &mut usize,
    end: &mut usize,
) -> bool
    ensures value { result ≡ (found_at s.now at).line }
    ensures start_after { start.new ≡ (found_at s.now at).start }
    ensures end_after { end.new ≡ (found_at s.now at).end }
{
    host::castanwel_next_line(s, at, start, end)
}

#[unsafe(no_mangle)]
pub extern "C" fn castanwel_feed(held: usize, b: u8, line: &mut usize) -> usize
    ensures value { result ≡ held_next held b }
    ensures line_after { line.new ≡ ends_here held b }
{
    host::castanwel_feed(held, b, line)
}

#[unsafe(no_mangle)]
pub extern "C" fn castanwel_places(body: &[u8], ends: &mut [usize]) -> usize
    ensures { Placed body.now ends.old result ends.new }
{
    host::castanwel_places(body, ends)
}

#[unsafe(no_mangle)]
pub extern "C" fn castanwel_field(
    line: &[u8],
    n: usize,
    start: &mut usize,
    end: &mut usize,
    at_line: &mut usize,
    field: &mut usize,
) -> u8
    ensures value { result ≡ (field_at line.now n).no }
    ensures start_after { start.new ≡ set_at (field_at line.now n).no
        (field_at line.now n).start start.old }
    ensures end_after { end.new ≡ set_at (field_at line.now n).no
        (field_at line.now n).end end.old }
    ensures at_line_after { at_line.new ≡ single_line (field_at line.now n).no }
    ensures field_after { field.new ≡ 0 }
{
    host::castanwel_field(line, n, start, end, at_line, field)
}

#[unsafe(no_mangle)]
pub extern "C" fn castanwel_refusal(line: &[u8], at_line: &mut usize, field: &mut usize) -> u8
    ensures value { result ≡ (refusal_of (read_line line.now)).no }
    ensures at_line_after { at_line.new ≡ single_line (refusal_of (read_line line.now)).no }
    ensures field_after { field.new ≡ (refusal_of (read_line line.now)).field }
{
    host::castanwel_refusal(line, at_line, field)
}
