// Digits and fixed bytes, as every layer above reads and writes them.
#![tactic(auto)]

pub mod pair;
pub mod sign;

ghost use Rattle.std.specs.Prelude.{◌%◌, ◌≤◌, ◌≡◌, length};
ghost use Rattle.digits.specs.Decimal.{digits_from, digits_of, find_in};
ghost use Rattle.digits.specs.Hex.{hex_digit, hex_of};
ghost use Rattle.digits.specs.Same.{same};

// Whether a byte is one of 0-9 or A-F; small letters are not.
pub fn is_hex(b: u8) -> bool
    ensures { result ≡ hex_digit b }
{
    matches!(b, b'0'..=b'9' | b'A'..=b'F')
}

// The capital hex digit of the low half of `n`.
pub fn hex_of(n: u8) -> u8
    ensures { result ≡ hex_of (n % 16) }
{
    let d = n % 16;
    if d < 10 { d + b'0' } else { d + 55 }
}

// Whether two slices hold the same bytes, as the definitions name it.
pub fn same_bytes(a: &[u8], b: &[u8]) -> bool
    ensures { result ≡ same a.now b.now }
{
    a == b
}

// The place of the first byte of `s` that is `b`, or the length where there is none, from which the callers go on: an Option
// would be taken apart in each of them.
pub fn find(s: &[u8], b: u8) -> usize
    ensures { result ≡ find_in b s.now }
{
    s.iter().position(|&c| c == b).unwrap_or(s.len())
}

// The value of up to nineteen decimal digits; there is none where a byte is no digit.
pub fn decimal(s: &[u8]) -> Option<u64>
    requires { length s.now ≤ 19 }
    ensures { result ≡ digits_from 0 s.now }
{
    let mut acc: u64 = 0;
    for &b in s {
        if !b.is_ascii_digit() {
            return None;
        }
        acc = acc * 10 + u64::from(b - b'0');
    }
    Some(acc)
}

// The value of `lo` to `hi` decimal digits, and of no more than nine.
pub fn digits(s: &[u8], lo: usize, hi: usize) -> Option<u32>
    ensures { result ≡ digits_of lo hi s.now }
{
    if s.len() < lo || hi < s.len() || 9 < s.len() {
        return None;
    }
    let v = decimal(s)?;
    Some(v as u32)
}
