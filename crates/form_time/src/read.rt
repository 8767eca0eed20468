// The time of day.
ghost use Rattle.std.specs.Prelude.{◌≡◌};
ghost use Rattle.form.specs.Got.{maybe_of};
ghost use Rattle.form_time.specs.Time.{time_form, time_of};

use digits::pair::pair_at;
use form::got::Got;

// The hundredths of a second of `hhmmss.ss`; there are none of other bytes, nor where a part is past its range.
fn of_day(f: &[u8]) -> Option<u32>
    ensures { result ≡ time_of f.now }
{
    if f.len() != 9 || f[6] != b'.' {
        return None;
    }
    let hours = pair_at(f, 0)?;
    let minutes = pair_at(f, 2)?;
    let seconds = pair_at(f, 4)?;
    let hundredths = pair_at(f, 7)?;
    if 23 < hours || 59 < minutes || 59 < seconds {
        return None;
    }
    Some(hours * 360000 + minutes * 6000 + seconds * 100 + hundredths)
}

// `084637.01`: a time of day in hundredths of a second; an empty field is missing, and any other is
// wrong.
pub fn time(f: &[u8]) -> Got
    ensures { result ≡ maybe_of f.now (time_of f.now) }
{
    form::got::maybe(f, of_day(f))
}
