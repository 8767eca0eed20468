// One letter of a set, read.
ghost use Rattle.std.specs.Prelude.{◌≡◌};
ghost use Rattle.form.specs.Got.{got_of};
ghost use Rattle.form_letter.specs.Letters.{letter_form, letter_of};

use form::got::Got;

// A field that is one letter of the set, or none.
fn one_of(f: &[u8], set: &[u8]) -> Option<u32>
    ensures { result ≡ letter_of set.now f.now }
{
    if f.len() != 1 || !set.contains(&f[0]) {
        return None;
    }
    Some(u32::from(f[0]))
}

// `A` of `ADEMSN` is 65. A field that is not one letter of the set is wrong, the empty one too.
pub fn letter(f: &[u8], set: &[u8]) -> Got
    ensures { result ≡ got_of (letter_of set.now f.now) }
{
    form::got::told(one_of(f, set))
}
