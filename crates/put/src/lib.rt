// Bytes and digits put into a lent buffer: each function writes from the place `at` on, as far as there
// is room, leaves all other bytes, and answers the next place.
#![tactic(auto)]

ghost use Rattle.std.specs.Prelude.{◌%◌, ◌+◌, ◌≤◌, [], ◌∷◌, ◌≡◌, length};
ghost use Rattle.digits.specs.Decimal.{print_fixed};
ghost use Rattle.digits.specs.Plain.{fraction_text, number_text, plain_text};
ghost use Rattle.digits.specs.Sign.{sign_text};
ghost use Rattle.put.specs.Wrote.{held, Puts};

pub fn put(out: &mut [u8], at: usize, b: u8) -> usize
    ensures { Puts (held at out.old) (b ∷ []) (held result out.new) }
{
    if at < out.len() {
        out[at] = b;
        return at + 1;
    }
    at
}

// Stores the bytes of `s` from place `at` on, where there is room for all of them.
fn copy(out: &mut [u8], at: usize, s: &[u8]) -> usize
    requires { at + length s.now ≤ length out.old }
    ensures { Puts (held at out.old) s.now (held result out.new) }
{
    let end = at + s.len();
    out[at..end].copy_from_slice(s);
    end
}

fn put_each(out: &mut [u8], at: usize, s: &[u8]) -> usize
    ensures { Puts (held at out.old) s.now (held result out.new) }
{
    let mut place = at;
    for b in s {
        place = put(out, place, *b);
    }
    place
}

pub fn put_bytes(out: &mut [u8], at: usize, s: &[u8]) -> usize
    ensures { Puts (held at out.old) s.now (held result out.new) }
{
    if s.len() <= out.len() && at <= out.len() - s.len() {
        return copy(out, at, s);
    }
    put_each(out, at, s)
}

// The last digit of `v`.
fn digit(v: u32) -> u8
    ensures { result ≡ 48 + v % 10 }
{
    48 + (v % 10) as u8
}

// The last digit, the last two, three and four digits of `v`.
pub fn put_one(out: &mut [u8], at: usize, v: u32) -> usize
    ensures { Puts (held at out.old) (print_fixed 1 v) (held result out.new) }
{
    put(out, at, digit(v))
}

pub fn put_two(out: &mut [u8], at: usize, v: u32) -> usize
    ensures { Puts (held at out.old) (print_fixed 2 v) (held result out.new) }
{
    let tens = digit(v / 10);
    let units = digit(v);
    if 2 <= out.len() && at <= out.len() - 2 {
        out[at] = tens;
        out[at + 1] = units;
        return at + 2;
    }
    let a = put(out, at, tens);
    put(out, a, units)
}

pub fn put_three(out: &mut [u8], at: usize, v: u32) -> usize
    ensures { Puts (held at out.old) (print_fixed 3 v) (held result out.new) }
{
    let a = put_two(out, at, v / 10);
    put_one(out, a, v)
}

pub fn put_four(out: &mut [u8], at: usize, v: u32) -> usize
    ensures { Puts (held at out.old) (print_fixed 4 v) (held result out.new) }
{
    let a = put_two(out, at, v / 10 / 10);
    put_two(out, a, v)
}

fn put_five(out: &mut [u8], at: usize, v: u32) -> usize
    ensures { Puts (held at out.old) (print_fixed 5 v) (held result out.new) }
{
    let a = put_four(out, at, v / 10);
    put_one(out, a, v)
}

fn put_six(out: &mut [u8], at: usize, v: u32) -> usize
    ensures { Puts (held at out.old) (print_fixed 6 v) (held result out.new) }
{
    let a = put_five(out, at, v / 10);
    put_one(out, a, v)
}

// `0`, `7`, `115200`: up to six digits without needless zeros.
pub fn put_plain(out: &mut [u8], at: usize, v: u32) -> usize
    ensures { Puts (held at out.old) (plain_text v) (held result out.new) }
{
    if v < 10 {
        return put_one(out, at, v);
    }
    if v < 100 {
        return put_two(out, at, v);
    }
    if v < 1000 {
        return put_three(out, at, v);
    }
    if v < 10000 {
        return put_four(out, at, v);
    }
    if v < 100000 {
        return put_five(out, at, v);
    }
    put_six(out, at, v)
}

// `.5`, `.05`, `.001`, or nothing for no thousandths.
fn put_fraction(out: &mut [u8], at: usize, m: u32) -> usize
    ensures { Puts (held at out.old) (fraction_text m) (held result out.new) }
{
    if m == 0 {
        return at;
    }
    let a = put(out, at, 46);
    if m % 100 == 0 {
        return put_one(out, a, m / 100);
    }
    if m % 10 == 0 {
        return put_two(out, a, m / 10);
    }
    put_three(out, a, m)
}

// `12`, `12.5`: a number in thousandths, without needless zeros.
pub fn put_number(out: &mut [u8], at: usize, v: u32) -> usize
    ensures { Puts (held at out.old) (number_text v) (held result out.new) }
{
    let a = put_plain(out, at, v / 1000);
    put_fraction(out, a, v % 1000)
}

// The minus of a value that is less than zero.
pub fn put_sign(out: &mut [u8], at: usize, z: i32) -> usize
    ensures { Puts (held at out.old) (sign_text z) (held result out.new) }
{
    if z < 0 {
        return put(out, at, 45);
    }
    at
}
