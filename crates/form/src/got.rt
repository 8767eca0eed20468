// What a form reads of its fields.
ghost use Rattle.std.specs.Prelude.{◌≡◌};
ghost use Rattle.form.specs.Got.{got_of, maybe_of, within_of};

// Which of the fields is wrong, counted from 1, or 0 for none; where none is, whether the value was sent, that is, not all
// of its fields are empty; and the value, 0 where it is missing or wrong. The default is a value that is missing.
#[derive(Clone, Copy, Default)]
pub struct Got {
    pub wrong: u8,
    pub there: bool,
    pub value: u32,
}

// The same of a value with a sign.
#[derive(Clone, Copy, Default)]
pub struct GotInt {
    pub wrong: u8,
    pub there: bool,
    pub value: i32,
}

// A field that is never empty: the value read, or wrong.
pub fn told(n: Option<u32>) -> Got
    ensures { result ≡ got_of n }
{
    match n {
        Some(value) => Got {
            wrong: 0,
            there: true,
            value,
        },
        None => Got {
            wrong: 1,
            there: true,
            value: 0,
        },
    }
}

// A field that may be empty, and is then missing.
pub fn maybe(f: &[u8], n: Option<u32>) -> Got
    ensures { result ≡ maybe_of f.now n }
{
    if f.is_empty() {
        return Got::default();
    }
    told(n)
}

// A number from `lo` to `hi`; any other is none.
pub fn within(n: Option<u32>, lo: u32, hi: u32) -> Option<u32>
    ensures { result ≡ within_of lo hi n }
{
    n.filter(|v| (lo..=hi).contains(v))
}
