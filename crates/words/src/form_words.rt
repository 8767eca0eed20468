// The values of a row, by the letter of their form.
ghost use Rattle.std.specs.Prelude.{◌≡◌, ◌≤◌, length, drop};
ghost use Rattle.put.specs.Wrote.{held, Puts};
ghost use Rattle.words.specs.Forms.{form_text, marks_of, small_of, taken_by, is_sent, value_text};

use crate::code;

// A value of one number, a position of two, or a date of three, that stands first in `numbers`.
fn put_form(out: &mut [u8], at: usize, f: u8, numbers: &[i64]) -> usize
    ensures { Puts (held at out.old) (form_text f numbers.now) (held result out.new) }
{
    if digits::find(b"nktdphvz", f) < 8 {
        return phrases::put_measure(out, at, f, numbers);
    }
    code::put_code(out, at, f, numbers::whole_at(numbers, 0))
}

// How many marks stand before the numbers of a value.
fn marks(f: u8) -> usize
    ensures { result ≡ marks_of f }
{
    if f < b'a' { 0 } else { 1 }
}

fn small(f: u8) -> u8
    ensures { result ≡ small_of f }
{
    if f < b'a' { f + 32 } else { f }
}

// How many numbers a value takes, with its mark.
pub(crate) fn taken(f: u8) -> usize
    ensures { result ≡ taken_by f }
{
    let numbers = match small(f) {
        b'd' => 3,
        b'p' => 2,
        _ => 1,
    };
    marks(f) + numbers
}

pub(crate) fn is_sent(f: u8, numbers: &[i64]) -> bool
    ensures { result ≡ is_sent f numbers.now }
{
    f < b'a' || numbers::there_at(numbers, 0)
}

// The place `k` further on; none is past the end.
pub(crate) fn past(numbers: &[i64], from: usize, k: usize) -> usize
    requires { from ≤ length numbers.now }
    ensures { (result ≤ length numbers.now) × (drop result numbers.now ≡ drop k (drop from numbers.now)) }
{
    from + k.min(numbers.len() - from)
}

// The value that stands first in `numbers`, behind its mark.
pub(crate) fn put_value(out: &mut [u8], at: usize, f: u8, numbers: &[i64]) -> usize
    ensures { Puts (held at out.old) (value_text f numbers.now) (held result out.new) }
{
    if is_sent(f, numbers) {
        let i = past(numbers, 0, marks(f));
        return put_form(out, at, small(f), &numbers[i..]);
    }
    put::put_bytes(out, at, b"not sent")
}
