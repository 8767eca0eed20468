// The cut of the lines of a log into runs, as C calls it.
ghost use Rattle.std.specs.Prelude.{◌≡◌};
ghost use Rattle.runs.specs.Runs.{says_of};
ghost use Rattle.runs.specs.Step.{open_of, step_of};
ghost use Rattle.sentence.specs.Lines.{read_line};

#[unsafe(no_mangle)]
pub extern "C" fn castanwel_run_step(
    lines: &mut u32,
    last: &mut u32,
    line: &[u8],
    before: &mut bool,
    ends: &mut bool,
) -> bool
    ensures value { result ≡ (step_of (open_of lines.old last.old) (says_of (read_line line.now))).joins }
    ensures before_after { before.new
        ≡ (step_of (open_of lines.old last.old) (says_of (read_line line.now))).before }
    ensures ends_after { ends.new
        ≡ (step_of (open_of lines.old last.old) (says_of (read_line line.now))).ends }
    ensures lines_after { lines.new
        ≡ (step_of (open_of lines.old last.old) (says_of (read_line line.now))).next.lines }
    ensures last_after { last.new
        ≡ (step_of (open_of lines.old last.old) (says_of (read_line line.now))).next.last }
{
    host::cuts::castanwel_run_step(lines, last, line, before, ends)
}
