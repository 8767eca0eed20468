// A value of a record that a sentence may leave out.
ghost use Rattle.std.specs.Prelude.{true, ◌≡◌};
ghost use Rattle.form.specs.declared.Maybe.{Maybe};

use crate::Maybe;

pub trait Sent {
    // Whether it is there, and the value.
    ghost sent: { Self → Maybe };

    fn sent(self) -> Maybe
        ensures { result ≡ sent self };
}

impl Sent for Maybe {
    ghost sent = { λ m. m };

    fn sent(self) -> Maybe {
        self
    }
}

// One that is never left out.
impl Sent for u32 {
    ghost sent = { λ v. record { there = true; value = v } };

    fn sent(self) -> Maybe {
        Maybe {
            there: true,
            value: self,
        }
    }
}
