// Numbers put as text into a lent buffer: each function writes from the place `at` on, as far as there is
// room, leaves all other bytes, and answers the next place.
#![tactic(auto)]

ghost use Rattle.std.specs.Prelude.{◌%◌, ◌+◌, ◌≡◌};
ghost use Rattle.digits.specs.Sign.{sign_text};
ghost use Rattle.put.specs.Wrote.{held, Puts};
ghost use Rattle.text.specs.Numbers.{decimal_text, int_text};

// The last digit of `n`.
fn digit(n: u64) -> u8
    ensures { result ≡ 48 + n % 10 }
{
    48 + (n % 10) as u8
}

// `0`, `7`, `115200`: the decimal digits of `n`.
pub fn put_number(out: &mut [u8], at: usize, n: u64) -> usize
    ensures { Puts (held at out.old) (decimal_text n) (held result out.new) }
{
    if n < 10 {
        return put::put(out, at, digit(n));
    }
    let a = put_number(out, at, n / 10);
    put::put(out, a, digit(n))
}

// The minus of a number that is less than zero.
fn put_minus(out: &mut [u8], at: usize, z: i64) -> usize
    ensures { Puts (held at out.old) (sign_text z) (held result out.new) }
{
    if z < 0 {
        return put::put(out, at, b'-');
    }
    at
}

// ` 7`, ` -30`: a number behind its blank, with its minus where it is less than zero.
pub fn put_int(out: &mut [u8], at: usize, z: i64) -> usize
    ensures { Puts (held at out.old) (int_text z) (held result out.new) }
{
    let a0 = put::put(out, at, b' ');
    let a1 = put_minus(out, a0, z);
    put_number(out, a1, z.unsigned_abs())
}
