// The values of this form from numbers.
ghost use Rattle.form_number.specs.Numbers.{number_layout, knots_layout, kmh_layout, signed_layout};

use crate::{Kmh, Knots, Number, Signed};
use form::Maybe;
use form::from_numbers::FromNumbers;

impl FromNumbers for Number {
    ghost layout = { number_layout };

    fn at(n: &[i64], i: usize) -> Number {
        let Maybe { there, value } = Maybe::at(n, i);
        Number { there, value }
    }
}

impl FromNumbers for Knots {
    ghost layout = { knots_layout };

    fn at(n: &[i64], i: usize) -> Knots {
        let Maybe { there, value } = Maybe::at(n, i);
        Knots { there, value }
    }
}

impl FromNumbers for Kmh {
    ghost layout = { kmh_layout };

    fn at(n: &[i64], i: usize) -> Kmh {
        let Maybe { there, value } = Maybe::at(n, i);
        Kmh { there, value }
    }
}

impl FromNumbers for Signed {
    ghost layout = { signed_layout };

    fn at(n: &[i64], i: usize) -> Signed {
        let there = numbers::there_at(n, i);
        if numbers::is_mark_at(n, i) {
            return Signed {
                there,
                value: numbers::signed_at(n, i + 1),
            };
        }
        Signed { there, value: 1 }
    }
}
