// A date and a zone that were read as values of a record.
ghost use Rattle.std.specs.Prelude.{◌≡◌};
ghost use Rattle.form_date.specs.Values.{dated_of, zoned_if, zoned_of};

use crate::dates::GotDate;
use crate::{Date, Zone};
use form::got::GotInt;

impl From<GotDate> for Date {
    ghost from_gives = { λ g d. d ≡ dated_of g };

    fn from(g: GotDate) -> Date {
        Date {
            there: g.there,
            day: g.day,
            month: g.month,
            year: g.year,
        }
    }
}

impl From<GotInt> for Zone {
    ghost from_gives = { λ g z. z ≡ zoned_of g };

    fn from(g: GotInt) -> Zone {
        Zone {
            there: g.there,
            minutes: g.value,
        }
    }
}

// A zone that is kept only where `there` says so, else missing.
pub fn zoned_if(there: bool, g: GotInt) -> Zone
    ensures { result ≡ zoned_if there g }
{
    if there {
        return g.into();
    }
    Zone {
        there: false,
        minutes: 0,
    }
}
