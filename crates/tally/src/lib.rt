// What a log holds beside its lines: bytes passed over, and lines that were begun and not given out.
#![tactic(auto)]

ghost use Rattle.std.specs.Prelude.{cond, ◌≡◌, eqb};
ghost use Rattle.tally.specs.Tally.{ended, nothing, one, pass_all, pass_one, plus, take};

// The count so far: whether a line was begun, how many bytes and how many rows of the file there were, and of the bytes how many
// were passed over; lines cut short by a `$` or the end, and lines of over 82 bytes.
#[derive(Clone, Copy, PartialEq, Eq, Debug, Default)]
pub struct Tally {
    pub begun: bool,
    pub bytes: u64,
    pub rows: u64,
    pub passed: u64,
    pub short: u64,
    pub long: u64,
}

pub fn start() -> Tally
    ensures { result ≡ nothing }
{
    Tally::default()
}

// The sum, or the last number of 64 bits where it is more.
fn plus(n: u64, k: u64) -> u64
    ensures { result ≡ plus n k }
{
    n.saturating_add(k)
}

fn one(b: bool) -> u64
    ensures { result ≡ one b }
{
    u64::from(b)
}

// 1 where `b` is the byte `c` and a line was begun.
fn begun_at(t: Tally, b: u8, c: u8) -> u64
    ensures { result ≡ cond (eqb b c) (one t.begun) 0 }
{
    if b == c { one(t.begun) } else { 0 }
}

fn pass_one(t: Tally, b: u8) -> Tally
    ensures { result ≡ pass_one t b }
{
    Tally {
        begun: b == b'$' || (b != b'\n' && t.begun),
        bytes: plus(t.bytes, 1),
        rows: plus(t.rows, one(b == b'\n')),
        passed: plus(t.passed, 1),
        short: plus(t.short, begun_at(t, b, b'$')),
        long: plus(t.long, begun_at(t, b, b'\n')),
    }
}

// After bytes that the finder passes over.
pub fn pass(first: Tally, s: &[u8]) -> Tally
    ensures { result ≡ pass_all first s.now }
{
    s.iter().fold(first, |t, b| pass_one(t, *b))
}

// After a line of `n` bytes that the finder gives out.
pub fn take(t: Tally, n: u64) -> Tally
    ensures { result ≡ take t n }
{
    Tally {
        begun: false,
        bytes: plus(t.bytes, n),
        rows: plus(t.rows, 1),
        short: plus(t.short, one(t.begun)),
        ..t
    }
}

// At the end of the log.
pub fn end(t: Tally) -> Tally
    ensures { result ≡ ended t }
{
    Tally {
        begun: false,
        short: plus(t.short, one(t.begun)),
        ..t
    }
}
