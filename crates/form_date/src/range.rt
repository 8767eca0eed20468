// Whether a date of a record exists.
ghost use Rattle.std.specs.Prelude.{◌≡◌};
ghost use Rattle.form_date.specs.Values.{six_wrong, three_wrong};

use crate::{Date, dates};
use form::Maybe;

// A date in one field.
pub fn six(d: Date) -> u8
    ensures { result ≡ six_wrong d }
{
    let good = if d.there {
        dates::is_date(d.day, d.month, d.year)
    } else {
        d.day == 0 && d.month == 0 && d.year == 0
    };
    if good { 0 } else { 1 }
}

// A date in three fields: 1 for the day, 2 for the month, 3 for the year or where there is no such date.
pub fn three(d: Date) -> u8
    ensures { result ≡ three_wrong d }
{
    let there = d.there;
    let day = Maybe {
        there,
        value: d.day,
    };
    let month = Maybe {
        there,
        value: d.month,
    };
    if form::range::maybe(day, 1, 31) != 0 {
        1
    } else if form::range::maybe(month, 1, 12) != 0 {
        2
    } else if six(d) != 0 {
        3
    } else {
        0
    }
}
