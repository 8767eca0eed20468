// Numbers in groups of seven bits: the low group first, the high bit of a byte set when another group follows, in the
// shortest form only.
#![tactic(auto)]

ghost use Rattle.std.specs.Prelude.{◌<◌, ◌≡◌, drop, length};
ghost use Rattle.put.specs.Wrote.{held, Puts};
ghost use Rattle.index_sevens.specs.Places.{taken_at};
ghost use Rattle.index_sevens.specs.Sevens.{onto, sevens, take_groups, take_sevens, within};

// What stands at a place: a number, and the place behind it; a number whose bytes end too soon, so that more may come;
// or bytes that no number begins with.
#[derive(Clone, Copy)]
pub enum Taken {
    Value(u64, usize),
    Short,
    Bad,
}

// How many bytes the number `v` takes.
pub fn size(v: u64) -> usize
    ensures { result ≡ length (sevens v) }
{
    let mut left = v;
    for n in 0..4 {
        if left < 128 {
            return n + 1;
        }
        left /= 128;
    }
    5
}

// Puts the number `v`, as each put does: 300 as AC 02.
pub fn put(out: &mut [u8], at: usize, v: u64) -> usize
    ensures { Puts (held at out.old) (sevens v) (held result out.new) }
{
    let mut place = at;
    let mut left = v;
    for _n in 0..5usize {
        if left < 128 {
            return put::put(out, place, left as u8);
        }
        place = put::put(out, place, 128 + (left % 128) as u8);
        left /= 128;
    }
    place
}

// Takes the groups behind the first, which is `low`, from `at` on.
fn take_more(s: &[u8], at: usize, low: u64) -> Taken
    requires { low < 128 }
    ensures { result ≡ taken_at (length s.now) (within (onto low (take_groups 4 (drop at s.now)))) }
{
    let mut place = at;
    let mut sum = low;
    let mut unit: u64 = 128;
    for _n in 1..5usize {
        if s.len() <= place {
            return Taken::Short;
        }
        let b = u64::from(s[place]);
        if b < 128 {
            let v = sum + unit * b;
            if b == 0 || 4294967295 < v {
                return Taken::Bad;
            }
            return Taken::Value(v, place + 1);
        }
        sum += unit * (b - 128);
        unit *= 128;
        place += 1;
    }
    Taken::Bad
}

// Takes the number that stands at `at`: AC 02 as 300.
pub fn take(s: &[u8], at: usize) -> Taken
    ensures { result ≡ taken_at (length s.now) (take_sevens (drop at s.now)) }
{
    if s.len() <= at {
        return Taken::Short;
    }
    let b = u64::from(s[at]);
    if b < 128 {
        return Taken::Value(b, at + 1);
    }
    take_more(s, at + 1, b - 128)
}
