// The line rule, for every slice of bytes, sound or damaged.
#![tactic(auto)]

ghost use Rattle.std.specs.Prelude.{◌≡◌, ◌&&◌, cond, leb, length, set};
ghost use Rattle.std.proofs.lemmas.List.Edits.{sets};
ghost use Rattle.line.specs.Line.{body_byte, body_bytes, xor_of, edge_form, end_form, end_gives, line_refusal};
ghost use Rattle.line.specs.Ends.{ends_from, ends_in, passing};

// Whether `b` is a byte from `-` to `[`, as digits, capitals and the point are: it may stand in a body, and ends no field.
fn is_plain(b: u8) -> bool
    ensures { result ≡ (leb 45 b && leb b 91) }
{
    b'-' <= b && b <= b'['
}

// Whether `b` may stand in a body.
#[tactic(auto, unfolding(crate::specs::Line::body_byte, crate::specs::Line::none_of))]
pub fn may_stand(b: u8) -> bool
    ensures { result ≡ body_byte b }
{
    b' ' <= b
        && b <= b'~'
        && b != b'$'
        && b != b'*'
        && b != b'!'
        && b != b'\\'
        && b != b'^'
        && b != b'~'
}

// Stores `i` at place `n` of `p`, if it has one.
pub fn store(p: &mut [usize], n: usize, i: usize)
    ensures { p.new ≡ set p.old n i }
{
    if n < p.len() {
        p[n] = i;
    }
}

// What one pass over a body finds: whether its bytes may all stand in a body, their XOR, and how many fields it has.
#[derive(Clone, Copy)]
struct Found {
    good: bool,
    xor: u8,
    count: usize,
}

// The pass. The place where each field ends is stored in `p`, one after another, as far as there is room: the place of a byte
// that is not plain is written over the one before it until a comma comes.
fn scan(s: &[u8], p: &mut [usize]) -> Found
    ensures good_value { (result.good ≡ body_bytes s.now) × (result.xor ≡ xor_of s.now) }
    ensures count_value { (result.count ≡ length (ends_from 0 s.now))
        × (p.new ≡ sets p.old 0 (ends_from 0 s.now)) }
{
    let mut good = true;
    let mut xor: u8 = 0;
    let mut n: usize = 0;
    for (i, &b) in s.iter().enumerate() {
        xor ^= b;
        if is_plain(b) {
            continue;
        }
        // `&` leaves no branch here: the loop passes over every byte of a line.
        good = good & may_stand(b);
        store(p, n, i);
        n += (b == b',') as usize;
    }
    store(p, n, s.len());
    Found {
        good,
        xor,
        count: n + 1,
    }
}

// Whether `t` is a line's end: `*`, two digits, CR, LF.
fn end_form(t: &[u8]) -> bool
    requires { length t.now ≡ 5 }
    ensures { result ≡ end_form t.now }
{
    t[0] == b'*' && digits::is_hex(t[1]) && digits::is_hex(t[2]) && t[3] == b'\r' && t[4] == b'\n'
}

// Whether the digits of a line's end give `x`.
fn end_gives(x: u8, t: &[u8]) -> bool
    requires { length t.now ≡ 5 }
    ensures { result ≡ end_gives x t.now }
{
    t[1] == digits::hex_of(x / 16) && t[2] == digits::hex_of(x)
}

// Whether `line` has the edges of a line: 7 to 82 bytes, `$` first, and a line's end.
fn edges(line: &[u8]) -> bool
    ensures { result ≡ edge_form line.now }
{
    let n = line.len();
    if n < 7 || 82 < n {
        return false;
    }
    line[0] == b'$' && end_form(&line[n - 5..])
}

// What the rule says of a line that has its edges, by its body and its digits.
fn judged(good: bool, gives: bool) -> u8
    ensures { result ≡ cond good (cond gives 0 2) 1 }
{
    if !good {
        1
    } else if gives {
        0
    } else {
        2
    }
}

// What one pass over a line finds: what the line rule says of it, and how many fields its body has.
#[derive(Clone, Copy)]
pub struct Passed {
    pub no: u8,
    pub count: usize,
}

// What the line rule says of `line`, as `line_refusal` does, and the fields of its body: how many there are, the address
// among them, and in `ends` the place where each ends, one after another, as far as there is room. What has not the edges
// of a line has no fields, and leaves `ends`.
//
//     $GPGSV,1,1,00*79    0, and four fields that end at 5, 7, 9 and 12 of the body
pub fn pass(line: &[u8], ends: &mut [usize]) -> Passed
    ensures value { result ≡ passing line.now }
    ensures ends_after { ends.new ≡ sets ends.old 0 (ends_in line.now) }
{
    if !edges(line) {
        return Passed { no: 1, count: 0 };
    }
    let n = line.len();
    let found = scan(&line[1..n - 5], ends);
    let gives = end_gives(found.xor, &line[n - 5..]);
    Passed {
        no: judged(found.good, gives),
        count: found.count,
    }
}

// What the line rule says of `line`: 0 where it is a line, 1 where the rule fails, 2 where the two
// digits differ from the XOR of the body.
//
//     $GPGSV,5,5,17,77,71,048,53*43
pub fn line_refusal(line: &[u8]) -> u8
    ensures { result ≡ line_refusal line.now }
{
    let mut ends = [0usize; 1];
    pass(line, &mut ends).no
}
