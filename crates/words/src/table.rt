// The rows of a table, put for numbers in the same order.
ghost use Rattle.std.specs.Prelude.{◌≡◌, drop};
ghost use Rattle.put.specs.Wrote.{held, Puts};
ghost use Rattle.words.specs.Table.{is_silent, number, step_text, step_state, step_taken, filled};

use crate::form_words;

// What comes next in a table: a name or a unit, a form, or a unit that is passed over.
#[derive(Clone, Copy)]
enum Mode {
    Name,
    Form,
    Passed,
}

// Whether a byte of a table that is no form puts nothing.
fn is_silent(q: Mode, b: u8) -> bool
    ensures { result ≡ is_silent (number q) b }
{
    match q {
        Mode::Name | Mode::Form => b == b'%',
        Mode::Passed => b != b'\n',
    }
}

// What a byte of a table puts.
fn put_step(out: &mut [u8], at: usize, q: Mode, b: u8, numbers: &[i64]) -> usize
    ensures { Puts (held at out.old) (step_text (number q) b numbers.now) (held result out.new) }
{
    match q {
        Mode::Form => form_words::put_value(out, at, b, numbers),
        Mode::Name | Mode::Passed => {
            if is_silent(q, b) {
                return at;
            }
            put::put(out, at, b)
        }
    }
}

// The state that it leaves.
fn state(q: Mode, b: u8, numbers: &[i64]) -> Mode
    ensures { number result ≡ step_state (number q) b numbers.now }
{
    match q {
        Mode::Form => {
            if form_words::is_sent(b, numbers) {
                Mode::Name
            } else {
                Mode::Passed
            }
        }
        Mode::Name | Mode::Passed => {
            if b == b'%' {
                return Mode::Form;
            }
            if is_silent(q, b) {
                Mode::Passed
            } else {
                Mode::Name
            }
        }
    }
}

// How many numbers it takes.
fn taken(q: Mode, b: u8) -> usize
    ensures { result ≡ step_taken (number q) b }
{
    match q {
        Mode::Form => form_words::taken(b),
        Mode::Name | Mode::Passed => 0,
    }
}

// Puts the rows of `table` for the numbers from place `from` on.
pub(crate) fn put_table(
    out: &mut [u8],
    at: usize,
    table: &[u8],
    numbers: &[i64],
    from: usize,
) -> usize
    ensures { Puts (held at out.old) (filled 0 table.now (drop from numbers.now))
        (held result out.new) }
{
    let mut a = at;
    let mut n = form_words::past(numbers, 0, from);
    let mut q = Mode::Name;
    for &b in table {
        let left = &numbers[n..];
        a = put_step(out, a, q, b, left);
        n = form_words::past(numbers, n, taken(q, b));
        q = state(q, b, left);
    }
    a
}
