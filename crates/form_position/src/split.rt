// A position split by signed division into degrees and the rest, each without its sign.
ghost use Rattle.std.specs.Prelude.{◌%◌, ◌/◌, ◌≡◌, nat_abs};

// The degrees of a position, and the rest in ten-thousandths of a minute.
pub fn degrees(z: i32) -> u32
    ensures { result ≡ nat_abs z / 600000 }
{
    digits::sign::size(z / 600000)
}

pub fn arc(z: i32) -> u32
    ensures { result ≡ nat_abs z % 600000 }
{
    digits::sign::size(z % 600000)
}
