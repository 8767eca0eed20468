// Texts in one text, with a byte between each two that divides them.
ghost use Rattle.std.specs.Prelude.{◌≡◌, ◌≤◌, length, drop};
ghost use Rattle.words.specs.Nth.{behind, nth};

// The place behind the byte `d` that is number `n` of its kind in `s`.
fn start(s: &[u8], d: u8, n: usize) -> usize
    ensures { (result ≤ length s.now) × (drop result s.now ≡ behind d n s.now) }
{
    let mut k = n;
    for (i, &b) in s.iter().enumerate() {
        if k == 0 {
            return i;
        }
        if b == d {
            k -= 1;
        }
    }
    s.len()
}

// Text `n` of `s`, counted from 0; nothing where there are not so many.
pub fn nth_of<'a>(s: &'a [u8], d: u8, n: usize) -> &'a [u8]
    ensures { result.now ≡ nth d n s.now }
{
    let from = start(s, d, n);
    let rest = &s[from..];
    let width = digits::find(rest, d);
    &rest[..width]
}
