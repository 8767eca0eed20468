// Whether a line repeats a satellite of its group.
ghost use Rattle.std.specs.Prelude.{◌≡◌, length};
ghost use Rattle.sky_read.specs.Steps.{Checks, Sound};

use kind_gsv::Gsv;

// Marks the satellites of a line, and answers whether one of them was there before, on the line or before it.
pub fn in_line(seen: &mut [u8], v: Gsv) -> bool
    requires { Sound v × (length seen.old ≡ 100) }
    ensures { Checks v seen.old result seen.new }
{
    let b0 = sky::marks::mark(seen, 0 < v.count, v.entries[0].number);
    let b1 = sky::marks::mark(seen, 1 < v.count, v.entries[1].number);
    let b2 = sky::marks::mark(seen, 2 < v.count, v.entries[2].number);
    let b3 = sky::marks::mark(seen, 3 < v.count, v.entries[3].number);
    b0 | (b1 | (b2 | b3))
}
