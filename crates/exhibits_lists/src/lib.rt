// Numbers and rows as a person writes them: on a command line, and in the list that an index is made from.
#![tactic(auto)]

ghost use Rattle.std.specs.Prelude.{◌+◌, ◌≤◌, ◌≡◌, drop, length};
ghost use Rattle.exhibits_lists.specs.Lists.{asked_of, blanks, body_length, body_of, follows_of, is_blank, is_padded, number_of};
ghost use Rattle.exhibits_lists.specs.Lists.{pair_of, row_of, width};

// Whether a zero stands before other digits.
fn is_padded(s: &[u8]) -> bool
    ensures { result ≡ is_padded s.now }
{
    2 <= s.len() && s[0] == b'0'
}

// The number that decimal digits say: 1 to 10 of them, no sign, no needless zero, at most 4294967295.
pub fn parse(s: &[u8]) -> Option<u64>
    ensures { result ≡ number_of s.now }
{
    if s.is_empty() || 10 < s.len() || is_padded(s) {
        return None;
    }
    digits::decimal(s).filter(|&v| v <= 4294967295)
}

// What a row of a list says: an exhibit and a line, nothing, or something else; each of the three is answered apart.
#[derive(Drop)]
pub enum Row {
    Is(u64, u64),
    Blank,
    Bad,
}

// Whether a byte divides words: a blank or a tab.
fn is_blank(b: u8) -> bool
    ensures { result ≡ is_blank b }
{
    b == b' ' || b == b'\t'
}

// How many blanks stand at the start.
fn blanks(s: &[u8]) -> usize
    ensures count { result ≡ blanks s.now }
    ensures within { result ≤ length s.now }
{
    s.iter().position(|&b| !is_blank(b)).unwrap_or(s.len())
}

// How many bytes stand before the first blank.
fn width(s: &[u8]) -> usize
    ensures count { result ≡ width s.now }
    ensures within { result ≤ length s.now }
{
    s.iter().position(|&b| is_blank(b)).unwrap_or(s.len())
}

// How long a row is without the CR at its end.
fn body_length(s: &[u8]) -> usize
    ensures { result ≡ body_length s.now }
{
    if s.last() == Some(&b'\r') {
        return s.len() - 1;
    }
    s.len()
}

// The row of two numbers.
fn pair(p: Option<u64>, q: Option<u64>) -> Row
    ensures { result ≡ pair_of p q }
{
    match (p, q) {
        (Some(exhibit), Some(line)) => Row::Is(exhibit, line),
        _ => Row::Bad,
    }
}

// What a row without its line end says.
fn body(t: &[u8]) -> Row
    ensures { result ≡ row_of t.now }
{
    let a = blanks(t);
    if t.len() <= a {
        return Row::Blank;
    }
    let b = a + width(&t[a..]);
    let c = b + blanks(&t[b..]);
    let d = c + width(&t[c..]);
    let e = d + blanks(&t[d..]);
    if e < t.len() {
        return Row::Bad;
    }
    pair(parse(&t[a..b]), parse(&t[c..d]))
}

// What a row says, which stands in `s` without its LF: two numbers divided by blanks. A CR at its end is not looked at.
pub fn read_row(s: &[u8]) -> Row
    ensures { result ≡ row_of (body_of s.now) }
{
    let n = body_length(s);
    body(&s[0..n])
}

// What a row asks for: the exhibit and its line; nothing; or why it is refused: it is no row, it names exhibit 0 or
// line 0, or its exhibit or its line does not come behind those of the row before.
#[derive(Drop)]
pub enum Asked {
    Is(u64, u64),
    Nothing,
    Malformed,
    NoExhibit,
    NoLine,
    ExhibitBehind(u64),
    LineBehind(u64),
}

// What an exhibit and its line ask for, behind those of the row before.
fn follows(last: u64, above: u64, exhibit: u64, line: u64) -> Asked
    ensures { result ≡ follows_of last above exhibit line }
{
    if exhibit == 0 {
        return Asked::NoExhibit;
    }
    if line == 0 {
        return Asked::NoLine;
    }
    if exhibit <= last {
        return Asked::ExhibitBehind(exhibit);
    }
    if line <= above {
        return Asked::LineBehind(line);
    }
    Asked::Is(exhibit, line)
}

// What a row asks for, behind the exhibit and the line of the row before; 0 and 0 where there is none.
pub fn asks(last: u64, above: u64, row: Row) -> Asked
    ensures { result ≡ asked_of last above row }
{
    match row {
        Row::Is(exhibit, line) => follows(last, above, exhibit, line),
        Row::Blank => Asked::Nothing,
        Row::Bad => Asked::Malformed,
    }
}
