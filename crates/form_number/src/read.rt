// Numbers with up to three digits behind a point, in thousandths.
ghost use Rattle.std.specs.Prelude.{◌-◌, ◌^◌, ◌≡◌, option_map};
ghost use Rattle.digits.specs.Sign.{signed, Under};
ghost use Rattle.form.specs.Got.{got_int_of, maybe_int_of, maybe_of};
ghost use Rattle.form_number.specs.Number.{below_form, below_of, height_form, height_of, number_form, number_of, thousandths};

use form::got::{Got, GotInt};

// What one counts in thousandths, at the last of `k` places behind the point.
fn scale(k: usize) -> u32
    ensures { result ≡ 10 ^ (3 - k) }
{
    match k {
        0 => 1000,
        1 => 100,
        2 => 10,
        _ => 1,
    }
}

// One to three digits behind a point, in thousandths, or none.
fn fraction(t: &[u8]) -> Option<u32>
    ensures { result ≡ thousandths t.now }
{
    let m = digits::digits(t, 1, 3)?;
    Some(m * scale(t.len()))
}

// The number of a field, or none.
fn read(f: &[u8]) -> Option<u32>
    ensures { result ≡ number_of f.now }
{
    let p = digits::find(f, b'.');
    let n = digits::digits(&f[..p], 1, 6)?;
    if f.len() <= p {
        return Some(n * 1000);
    }
    let m = fraction(&f[p + 1..])?;
    Some(n * 1000 + m)
}

// `182.1` is 182100. An empty field is missing; `5.`, `.5`, `-5`, `+5`, seven digits before the
// point and four behind it are wrong.
pub fn number(f: &[u8]) -> Got
    ensures { result ≡ maybe_of f.now (number_of f.now) }
{
    form::got::maybe(f, read(f))
}

// A number that is less than `limit`, or none.
pub fn less(f: &[u8], limit: u32) -> Option<u32>
    ensures { result ≡ below_of limit f.now }
{
    read(f).filter(|&v| v < limit)
}

// `359.999` is 359999 below 360000, and `360` is wrong. An empty field is missing.
pub fn below(f: &[u8], limit: u32) -> Got
    ensures { result ≡ maybe_of f.now (below_of limit f.now) }
{
    form::got::maybe(f, less(f, limit))
}

// A number that is there, negated where `minus` is true, or wrong.
fn told_int(n: Option<u32>, minus: bool) -> GotInt
    requires { Under 1000000000 n }
    ensures { result ≡ got_int_of (option_map (signed minus) n) }
{
    match n {
        Some(v) => GotInt {
            wrong: 0,
            there: true,
            value: digits::sign::held(v, minus),
        },
        None => GotInt {
            wrong: 1,
            there: true,
            value: 0,
        },
    }
}

// `-5.5` is -5500, and `-0` is 0. An empty field is missing; what is no number behind at most one
// minus is wrong.
pub fn height(f: &[u8]) -> GotInt
    ensures { result ≡ maybe_int_of f.now (height_of f.now) }
{
    match f {
        [] => GotInt::default(),
        [b'-', rest @ ..] => told_int(read(rest), true),
        _ => told_int(read(f), false),
    }
}
