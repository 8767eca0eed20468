// Blank records: all values missing and zero.
ghost use Rattle.std.specs.Prelude.{◌≡◌};
ghost use Rattle.form.specs.Values.{no_maybe};
ghost use Rattle.kind_gsv.specs.Blank.{blank_entry, blank_gsv};

use crate::{Entry, Gsv};
use form::Maybe;

fn no_maybe() -> Maybe
    ensures { result ≡ no_maybe }
{
    Maybe {
        there: false,
        value: 0,
    }
}

pub fn entry() -> Entry
    ensures { result ≡ blank_entry }
{
    let none = no_maybe();
    Entry {
        number: 0,
        elevation: none,
        azimuth: none,
        signal: none,
    }
}

pub fn gsv() -> Gsv
    ensures { result ≡ blank_gsv }
{
    let none = entry();
    Gsv {
        lines: 0,
        line: 0,
        satellites: 0,
        count: 0,
        entries: [none; 4],
    }
}
