// Whether a letter is one of its set.
ghost use Rattle.std.specs.Prelude.{◌≡◌};
ghost use Rattle.form_letter.specs.Letters.{letter_wrong};

// One letter of a set.
pub fn letter(v: u32, set: &[u8]) -> u8
    ensures { result ≡ letter_wrong set.now v }
{
    if set.iter().any(|&b| u32::from(b) == v) {
        0
    } else {
        1
    }
}
