// The cut of the lines of a log into runs, line by line, as Rust or C calls it.
ghost use Rattle.std.specs.Prelude.{◌≡◌};
ghost use Rattle.runs.specs.Runs.{says_of};
ghost use Rattle.runs.specs.Step.{open_of, step_of};
ghost use Rattle.sentence.specs.Lines.{read_line};

use runs::Open;

// Whether `line`, the next that was found, stands in a run: it reads as GSV. `lines` and `last` say what is open, how many
// lines it has, 0 where none is, and the number that its first announced as last; they are set to what is open behind the
// line. `before` is set to whether the open run ends before the line, `ends` to whether the line's own ends with it.
pub fn castanwel_run_step(
    lines: &mut u32,
    last: &mut u32,
    line: &[u8],
    before: &mut bool,
    ends: &mut bool,
) -> bool
    ensures value { result ≡ (step_of (open_of lines.old last.old) (says_of (read_line line.now))).joins }
    ensures before_after { before.new
        ≡ (step_of (open_of lines.old last.old) (says_of (read_line line.now))).before }
    ensures ends_after { ends.new
        ≡ (step_of (open_of lines.old last.old) (says_of (read_line line.now))).ends }
    ensures lines_after { lines.new
        ≡ (step_of (open_of lines.old last.old) (says_of (read_line line.now))).next.lines }
    ensures last_after { last.new
        ≡ (step_of (open_of lines.old last.old) (says_of (read_line line.now))).next.last }
{
    let was = Open {
        lines: *lines,
        last: *last,
    };
    let stepped = runs::step(was, line);
    let next = stepped.next;
    *before = stepped.before;
    *ends = stepped.ends;
    *lines = next.lines;
    *last = next.last;
    stepped.joins
}
