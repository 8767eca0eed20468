// A value with its sign, and without.
ghost use Rattle.std.specs.Prelude.{◌<◌, ◌≡◌, nat_abs};
ghost use Rattle.digits.specs.Sign.{signed};

// `v`, negated where `minus` is true.
pub fn held(v: u32, minus: bool) -> i32
    requires { v < 1000000000 }
    ensures { result ≡ signed minus v }
{
    if minus { -(v as i32) } else { v as i32 }
}

// A value without its sign.
pub fn size(z: i32) -> u32
    ensures { result ≡ nat_abs z }
{
    z.unsigned_abs()
}
