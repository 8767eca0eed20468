// Numbers without needless zeros: a rate, and a self-test code.
ghost use Rattle.std.specs.Prelude.{◌≡◌};
ghost use Rattle.form_mask.specs.Rates.{code_form, plain_of, rate_form};

use form::got::Got;

// The value of `lo` to `hi` digits without needless zeros.
fn plain(f: &[u8], lo: usize, hi: usize) -> Option<u32>
    ensures { result ≡ plain_of lo hi f.now }
{
    if 1 < f.len() && f[0] == b'0' {
        return None;
    }
    digits::digits(f, lo, hi)
}

// `4800`: a rate from 1200 to 115200 without leading zeros; an empty field is missing, and any other is
// wrong.
pub fn rate(f: &[u8]) -> Got
    ensures { result ≡ rate_form f.now }
{
    form::got::maybe(f, form::got::within(plain(f, 4, 6), 1200, 115200))
}

// `0` or `255`: a code in one to three digits without needless zeros; any other is wrong, an empty one
// too.
pub fn code(f: &[u8]) -> Got
    ensures { result ≡ code_form f.now }
{
    form::got::told(form::got::within(plain(f, 1, 3), 0, 255))
}
