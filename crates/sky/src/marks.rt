// Which satellite numbers a group has had: a byte for each number, 1 where it has.
ghost use Rattle.std.specs.Prelude.{◌≡◌};
ghost use Rattle.sky.specs.Marks.{HasMark, had_if, marked_if};

// Marks a number that is used, and answers whether it was marked before.
pub fn mark(seen: &mut [u8], used: bool, n: u32) -> bool
    requires { HasMark used n seen.old }
    ensures { (result ≡ had_if used n seen.old) × (seen.new ≡ marked_if used n seen.old) }
{
    if !used {
        return false;
    }
    let i = n as usize;
    let had = seen[i] == 1;
    seen[i] = 1;
    had
}
