// A number that was read as a value of a record, and as one that may be left out.
ghost use Rattle.std.specs.Prelude.{◌≡◌};
ghost use Rattle.form.specs.declared.Maybe.{Maybe};
ghost use Rattle.form_number.specs.Values.{kmh_of, knots_of, number_of, signed_of};

use crate::{Kmh, Knots, Number, Signed};
use form::Maybe;
use form::got::{Got, GotInt};
use form::sent::Sent;

impl From<Got> for Number {
    ghost from_gives = { λ g n. n ≡ number_of g };

    fn from(g: Got) -> Number {
        Number {
            there: g.there,
            value: g.value,
        }
    }
}

impl Sent for Number {
    ghost sent = { λ n. record { there = n.there; value = n.value } };

    fn sent(self) -> Maybe {
        Maybe {
            there: self.there,
            value: self.value,
        }
    }
}

impl From<Got> for Knots {
    ghost from_gives = { λ g n. n ≡ knots_of g };

    fn from(g: Got) -> Knots {
        Knots {
            there: g.there,
            value: g.value,
        }
    }
}

impl Sent for Knots {
    ghost sent = { λ n. record { there = n.there; value = n.value } };

    fn sent(self) -> Maybe {
        Maybe {
            there: self.there,
            value: self.value,
        }
    }
}

impl From<Got> for Kmh {
    ghost from_gives = { λ g n. n ≡ kmh_of g };

    fn from(g: Got) -> Kmh {
        Kmh {
            there: g.there,
            value: g.value,
        }
    }
}

impl Sent for Kmh {
    ghost sent = { λ n. record { there = n.there; value = n.value } };

    fn sent(self) -> Maybe {
        Maybe {
            there: self.there,
            value: self.value,
        }
    }
}

impl From<GotInt> for Signed {
    ghost from_gives = { λ g n. n ≡ signed_of g };

    fn from(g: GotInt) -> Signed {
        Signed {
            there: g.there,
            value: g.value,
        }
    }
}
