// The letter of a unit, and fields that stay empty.
ghost use Rattle.std.specs.Prelude.{[], ◌∷◌, ◌≡◌};
ghost use Rattle.digits.specs.Same.{same};
ghost use Rattle.form.specs.Units.{empty_wrong, unit_wrong};

// Whether a field is the one letter `b`.
pub fn only(u: &[u8], b: u8) -> bool
    ensures { result ≡ same u.now (b ∷ []) }
{
    u == [b].as_slice()
}

// `M` beside a height. 0 where the field is the letter `b`, or is empty and its value is not there;
// else 1.
pub fn unit(u: &[u8], there: bool, b: u8) -> u8
    ensures { result ≡ unit_wrong u.now there b }
{
    if only(u, b) || (!there && u.is_empty()) {
        0
    } else {
        1
    }
}

// 0 where the field is empty, else 1.
pub fn empty(f: &[u8]) -> u8
    ensures { result ≡ empty_wrong f.now }
{
    if f.is_empty() { 0 } else { 1 }
}
