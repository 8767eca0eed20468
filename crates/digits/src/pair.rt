// Two digits in a field.
ghost use Rattle.std.specs.Prelude.{◌≡◌};
ghost use Rattle.digits.specs.Pairs.{pair_at};

// The two digits that stand in `f` from place `k`; none where fewer bytes stand there or one is no digit.
pub fn pair_at(f: &[u8], k: usize) -> Option<u32>
    ensures { result ≡ pair_at k f.now }
{
    crate::digits(f.get(k..)?.get(..2)?, 2, 2)
}
