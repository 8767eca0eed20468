// Digits of a fixed width, in a range.
ghost use Rattle.std.specs.Prelude.{◌≡◌};
ghost use Rattle.form.specs.Got.{got_of, maybe_of};
ghost use Rattle.form_number.specs.Fixed.{exact_form, fixed_form, fixed_of};

use form::got::Got;

// `w` digits whose value is from `lo` to `hi`; any other field is none.
fn ranged(f: &[u8], w: usize, lo: u32, hi: u32) -> Option<u32>
    ensures { result ≡ fixed_of w lo hi f.now }
{
    form::got::within(digits::digits(f, w, w), lo, hi)
}

// `05` is 5 in two digits from 1 to 99. An empty field is missing; fewer or more digits, any other
// byte and a value out of the range are wrong.
pub fn fixed(f: &[u8], w: usize, lo: u32, hi: u32) -> Got
    ensures { result ≡ maybe_of f.now (fixed_of w lo hi f.now) }
{
    form::got::maybe(f, ranged(f, w, lo, hi))
}

// `8` is 8 in one digit from 0 to 8. The same, but an empty field is wrong.
pub fn exact(f: &[u8], w: usize, lo: u32, hi: u32) -> Got
    ensures { result ≡ got_of (fixed_of w lo hi f.now) }
{
    form::got::told(ranged(f, w, lo, hi))
}
