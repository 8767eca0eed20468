// Whether the value of a record is in its range: 0 where it is, else which of its fields is wrong, counted
// from 1. A value marked missing is held as zero, else it is wrong.
ghost use Rattle.std.specs.Prelude.{◌≡◌};
ghost use Rattle.form.specs.Values.{alike_wrong, outside, range_wrong, signed_wrong};

use crate::Maybe;
use crate::sent::Sent;

// A value from `lo` to `hi`.
pub fn within(v: u32, lo: u32, hi: u32) -> u8
    ensures { result ≡ outside lo hi v }
{
    if lo <= v && v <= hi { 0 } else { 1 }
}

// The same of a value that may be missing.
pub fn maybe<T: Sent>(v: T, lo: u32, hi: u32) -> u8
    ensures { result ≡ range_wrong lo hi (T.sent v).there (T.sent v).value }
{
    let m = v.sent();
    if m.there {
        within(m.value, lo, hi)
    } else {
        within(m.value, 0, 0)
    }
}

// A signed value up to `hi` either way, which may be missing. The mark stands apart, since such values come from three types of
// three crates, and one of them has one mark for two values.
pub fn signed(there: bool, z: i32, hi: u32) -> u8
    ensures { result ≡ signed_wrong hi there z }
{
    let value = digits::sign::size(z);
    maybe(Maybe { there, value }, 0, hi)
}

// A value that is there exactly where another is; `wrong` says whether it is wrong by itself.
pub fn alike(needed: bool, there: bool, wrong: u8) -> u8
    ensures { result ≡ alike_wrong needed there wrong }
{
    if needed == there { wrong } else { 1 }
}
