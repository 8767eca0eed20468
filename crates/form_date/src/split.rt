// A zone split by signed division into hours and minutes, each without its sign.
ghost use Rattle.std.specs.Prelude.{◌%◌, ◌/◌, ◌≡◌, nat_abs};

// The hours of a zone, and the minutes.
pub fn hours(z: i32) -> u32
    ensures { result ≡ nat_abs z / 60 }
{
    digits::sign::size(z / 60)
}

pub fn minutes(z: i32) -> u32
    ensures { result ≡ nat_abs z % 60 }
{
    digits::sign::size(z % 60)
}
