// How what a form read becomes a value of a record, and where a sentence is wrong.
ghost use Rattle.std.specs.Prelude.{◌≡◌};
ghost use Rattle.form.specs.Values.{kept_if, kept_of, needed_int, needed_wrong};
ghost use Rattle.form.specs.Wrong.{near_of};

use crate::Maybe;
use crate::got::{Got, GotInt};

impl From<Got> for Maybe {
    ghost from_gives = { λ g m. m ≡ kept_of g };

    fn from(g: Got) -> Maybe {
        Maybe {
            there: g.there,
            value: g.value,
        }
    }
}

// The first wrong field of a sentence from a form on that `n` fields stand before: its own, where one
// of its fields is wrong, else `rest`, the first wrong one after it.
pub fn near(n: u8, wrong: u8, rest: usize) -> usize
    ensures { result ≡ near_of n wrong rest }
{
    if wrong == 0 {
        return rest;
    }
    n as usize + wrong as usize
}

// A value that is kept only where `there` says so, else missing.
pub fn kept_if(there: bool, g: Got) -> Maybe
    ensures { result ≡ kept_if there g }
{
    if there {
        return g.into();
    }
    Maybe {
        there: false,
        value: 0,
    }
}

// Whether a field is wrong that may be empty only where `needed` is false.
pub fn needed(needed: bool, g: Got) -> u8
    ensures { result ≡ needed_wrong needed g }
{
    if g.wrong != 0 {
        return g.wrong;
    }
    if needed & !g.there { 1 } else { 0 }
}

pub fn needed_int(needed: bool, g: GotInt) -> u8
    ensures { result ≡ needed_int needed g }
{
    if g.wrong != 0 {
        return g.wrong;
    }
    if needed & !g.there { 1 } else { 0 }
}
