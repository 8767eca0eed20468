// The values of this form from numbers.
ghost use Rattle.form_position.specs.Numbers.{place_layout};

use crate::Place;
use form::from_numbers::FromNumbers;

impl FromNumbers for Place {
    ghost layout = { place_layout };

    fn at(n: &[i64], i: usize) -> Place {
        let there = numbers::there_at(n, i);
        if numbers::is_mark_at(n, i) {
            return Place {
                there,
                lat: numbers::signed_at(n, i + 1),
                lon: numbers::signed_at(n, i + 1 + 1),
            };
        }
        Place {
            there,
            lat: 1,
            lon: 0,
        }
    }
}
