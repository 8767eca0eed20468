// Why a line fails the line rule: the first part of the rule that does not hold, and where.
#![tactic(auto)]

ghost use Rattle.std.specs.Prelude.{◌≤◌, ◌≡◌, length};
ghost use Rattle.line_flaw.specs.Flaw.{end_parts, first_failing, flaw_of, forbidden};

// Which part of the line rule fails, by its number, and at which byte of the line, counted from 1; both are 0 where
// none does. The numbers: 1 at least 7 bytes, 2 at most 82 bytes, 3 `$` first, 4 LF last, 5 CR before it, 6 `*` before
// the last four bytes, 7 and 8 a digit 0-9 or A-F, and again, 9 the bytes of the body.
#[derive(Clone, Copy)]
pub struct Flaw {
    pub no: u8,
    pub at: usize,
}

// The first byte of a body, whose first has place 2 in its line, that may not stand there; 0 where all may.
fn forbidden_in(s: &[u8]) -> usize
    ensures { result ≡ forbidden 2 s.now }
{
    match s.iter().position(|&b| !line::may_stand(b)) {
        Some(i) => i + 2,
        None => 0,
    }
}

// The flaw of a line of `n` bytes whose last five are `t`, by the place of a forbidden byte of its body.
fn end_flaw(n: usize, t: &[u8], at: usize) -> Flaw
    requires t_len { length t.now ≡ 5 }
    requires le_n { 7 ≤ n }
    ensures { result ≡ first_failing 4 (end_parts n t.now at) }
{
    if t[4] != b'\n' {
        return Flaw { no: 4, at: n };
    }
    if t[3] != b'\r' {
        return Flaw { no: 5, at: n };
    }
    if t[0] != b'*' {
        return Flaw { no: 6, at: n - 4 };
    }
    if !digits::is_hex(t[1]) {
        return Flaw { no: 7, at: n - 3 };
    }
    if !digits::is_hex(t[2]) {
        return Flaw { no: 8, at: n - 2 };
    }
    if at == 0 {
        return Flaw { no: 0, at: 0 };
    }
    Flaw { no: 9, at }
}

// The flaw of `line`: number and byte are 0 where the line rule holds but for the two digits' value, that is, where it
// refuses the line with 2 or not at all.
//
//     $GPGSV,1,1,00*79 and LF alone    5 at byte 17
pub fn flaw_of(line: &[u8]) -> Flaw
    ensures { result ≡ flaw_of line.now }
{
    let n = line.len();
    if n < 7 {
        return Flaw { no: 1, at: n };
    }
    if 82 < n {
        return Flaw { no: 2, at: 83 };
    }
    if line[0] != b'$' {
        return Flaw { no: 3, at: 1 };
    }
    let at = forbidden_in(&line[1..n - 5]);
    end_flaw(n, &line[n - 5..], at)
}
