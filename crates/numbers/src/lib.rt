// Numbers in a lent slice, as values cross to a host: 64 bits with a sign, one a value.
#![tactic(auto)]

ghost use Rattle.std.specs.Prelude.{◌≡◌, leb, pos, length, get_or};
ghost use Rattle.numbers.specs.Told.{gives, Tells, told};
ghost use Rattle.numbers.specs.Numbers.{is_there, is_mark, is_whole, whole_of, signed_of, laid, talker_number, talker_of};

use address::Talker;

// The number at place `i`; 0 past the end.
pub fn at(numbers: &[i64], i: usize) -> i64
    ensures { result ≡ get_or numbers.now i (pos 0) }
{
    numbers.get(i).copied().unwrap_or(0)
}

// Stores all of `values` at the start of `out` and answers whether there was room; where there was none,
// `out` is left.
pub fn lay(out: &mut [i64], values: &[i64]) -> bool
    ensures value { result ≡ leb (length values.now) (length out.old) }
    ensures out_after { out.new ≡ laid values.now out.old }
{
    if out.len() < values.len() {
        return false;
    }
    out[..values.len()].copy_from_slice(values);
    true
}

// What a host is told of a line: 0 and its kind, or a refusal with its field; its numbers stand beside it.
#[derive(Clone, Copy, PartialEq, Eq, Debug)]
pub struct Told {
    pub no: u8,
    pub kind: u32,
    pub field: usize,
}

// The answer of a refusal.
pub fn refuse(no: u8, field: usize) -> Told
    ensures { result ≡ told no 0 field }
{
    Told { no, kind: 0, field }
}

// The answer of a record that has no numbers.
pub fn bare(kind: u32) -> Told
    ensures { result ≡ told 0 kind 0 }
{
    Told {
        no: 0,
        kind,
        field: 0,
    }
}

// Stores the numbers of a record of a kind at the start of `out`. Refused: 8 where there is no room, and then `out` is left.
pub fn tell(out: &mut [i64], kind: u32, values: &[i64]) -> Told
    ensures { Tells (gives out.old kind values.now) result out.new }
{
    if lay(out, values) {
        return bare(kind);
    }
    refuse(8, 0)
}

// Whether a number is the mark of a value that is there: 1.
fn marked(mark: i64) -> bool
    ensures { result ≡ is_there mark }
{
    mark == 1
}

// Whether a number is a mark: 0 or 1.
fn is_mark(n: i64) -> bool
    ensures { result ≡ is_mark n }
{
    0 <= n && n <= 1
}

// Whether a value without sign of 32 bits holds a number.
fn is_whole(n: i64) -> bool
    ensures { result ≡ is_whole n }
{
    0 <= n && n <= 4294967295
}

// The value without sign that is held of a number: itself, or 4294967295 where it does not fit. The bits of a negative number, taken as
// a number without sign, are larger.
fn whole(n: i64) -> u32
    ensures { result ≡ whole_of n }
{
    n.cast_unsigned().min(u64::from(u32::MAX)) as u32
}

// The value with a sign that is held of a number: itself, or the nearest end of 32 bits.
fn signed(n: i64) -> i32
    ensures { result ≡ signed_of n }
{
    n.clamp(i64::from(i32::MIN), i64::from(i32::MAX)) as i32
}

// The same of the number at a place: whether it is the mark of a value that is there, whether it is a mark, whether
// 32 bits without sign hold it, and the value that is held of it.
pub fn there_at(numbers: &[i64], i: usize) -> bool
    ensures { result ≡ is_there (get_or numbers.now i (pos 0)) }
{
    marked(at(numbers, i))
}

pub fn is_mark_at(numbers: &[i64], i: usize) -> bool
    ensures { result ≡ is_mark (get_or numbers.now i (pos 0)) }
{
    is_mark(at(numbers, i))
}

pub fn is_whole_at(numbers: &[i64], i: usize) -> bool
    ensures { result ≡ is_whole (get_or numbers.now i (pos 0)) }
{
    is_whole(at(numbers, i))
}

pub fn whole_at(numbers: &[i64], i: usize) -> u32
    ensures { result ≡ whole_of (get_or numbers.now i (pos 0)) }
{
    whole(at(numbers, i))
}

pub fn signed_at(numbers: &[i64], i: usize) -> i32
    ensures { result ≡ signed_of (get_or numbers.now i (pos 0)) }
{
    signed(at(numbers, i))
}

// The number of a talker, from 0 in the order of document 01. Hosts are handed it; a `From` would have to stand in crate address, away
// from the other numbers of a host.
pub fn talker_number(t: Talker) -> u32
    ensures { result ≡ talker_number t }
{
    match t {
        Talker::Gp => 0,
        Talker::Gl => 1,
        Talker::Ga => 2,
        Talker::Gq => 3,
        Talker::Gn => 4,
    }
}

// The talker of a number from 0 to 4; GN for any other, which callers refuse.
pub fn talker_of(n: u32) -> Talker
    ensures { result ≡ talker_of n }
{
    match n {
        0 => Talker::Gp,
        1 => Talker::Gl,
        2 => Talker::Ga,
        3 => Talker::Gq,
        _ => Talker::Gn,
    }
}
