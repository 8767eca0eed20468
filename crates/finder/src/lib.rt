// The line finder: where a line begins and ends in a stream of bytes.
#![tactic(auto)]

ghost use Rattle.std.specs.Prelude.{◌≡◌};
ghost use Rattle.finder.specs.Finder.{fed_of};
ghost use Rattle.finder.specs.Slice.{found_at};
ghost use Rattle.finder.specs.Until.{held_in, ended_in, reach_of};

// The finder after a byte: how many bytes it holds, and the length of the line that this byte
// ends, 0 where it ends none. The caller holds the bytes themselves. A host of C is handed both numbers as they stand.
#[derive(Clone, Copy, PartialEq, Eq, Debug)]
pub struct Fed {
    pub held: usize,
    pub line: usize,
}

// One byte fed to a finder that holds `held` bytes; at the start it holds 0.
pub fn feed(held: usize, b: u8) -> Fed
    ensures { result ≡ fed_of held b }
{
    if b == b'$' {
        return Fed { held: 1, line: 0 };
    }
    if held < 1 || 81 < held {
        return Fed { held: 0, line: 0 };
    }
    if b == b'\n' {
        return Fed {
            held: 0,
            line: held + 1,
        };
    }
    if held == 81 {
        return Fed { held: 0, line: 0 };
    }
    Fed {
        held: held + 1,
        line: 0,
    }
}

// The first line of a slice from a place on: where it starts and ends. Where there is none, `line` is false,
// `end` is the end of the slice, or the place itself where that lies beyond it, and an unfinished line begins at
// `start`, which is `end` where nothing is unfinished. Both places say something where there is no line, and a host of C is handed all
// three, so this is no Option.
#[derive(Clone, Copy, PartialEq, Eq, Debug)]
pub struct Found {
    pub line: bool,
    pub start: usize,
    pub end: usize,
}

// How many bytes of an unfinished line stand before `i`, where it can end only before `until`.
fn held_in(until: usize, i: usize) -> usize
    ensures { result ≡ held_in until i }
{
    if until <= i {
        return 0;
    }
    let left = until - i;
    if 82 < left {
        return 0;
    }
    82 - left
}

// The same where `b` ends the line, and else 0.
fn ended_in(until: usize, i: usize, b: u8) -> usize
    ensures { result ≡ ended_in until i b }
{
    if b != b'\n' {
        return 0;
    }
    held_in(until, i)
}

// What a line can end before after the byte `b`: a new line before `fresh`.
fn reach(until: usize, fresh: usize, b: u8) -> usize
    ensures { result ≡ reach_of until fresh b }
{
    if b == b'$' { fresh } else { until }
}

// The first line that the finder gives out when it is fed the bytes of `s` from `at` on; from beyond the end of `s` it
// finds none, and both places are `at`.
pub fn next_line(s: &[u8], at: usize) -> Found
    ensures { result ≡ found_at s.now at }
{
    let mut until: usize = 0;
    for i in at..s.len() {
        let b = s[i];
        if b'$' < b {
            continue;
        }
        let n = ended_in(until, i, b);
        if 0 < n {
            return Found {
                line: true,
                start: i - n,
                end: i + 1,
            };
        }
        until = reach(until, i + 82, b);
    }
    let end = at.max(s.len());
    Found {
        line: false,
        start: end - held_in(until, end),
        end,
    }
}
