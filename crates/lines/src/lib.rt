// Bytes cut into lines, and what one damaged byte does to a run of lines.
#![tactic(auto)]

ghost use Rattle.std.specs.Prelude.{◌≡◌, ◌+◌, drop};
ghost use Rattle.lines.specs.Cut.{line_width};

// Where the line that starts at `at` ends: past its LF, or at the end of `s` where it has none. From
// the end of `s` on there is no line, and the answer is `at`.
pub fn line_end(s: &[u8], at: usize) -> usize
    ensures { result ≡ at + line_width (drop at s.now) }
{
    let Some(rest) = s.get(at..) else {
        return at;
    };
    match rest.iter().position(|&b| b == b'\n') {
        Some(n) => at + n + 1,
        None => s.len(),
    }
}
