// The values of this form from numbers.
ghost use Rattle.form_date.specs.Numbers.{date_layout, zone_layout};

use crate::{Date, Zone};
use form::from_numbers::FromNumbers;

impl FromNumbers for Zone {
    ghost layout = { zone_layout };

    fn at(n: &[i64], i: usize) -> Zone {
        let there = numbers::there_at(n, i);
        if numbers::is_mark_at(n, i) {
            return Zone {
                there,
                minutes: numbers::signed_at(n, i + 1),
            };
        }
        Zone { there, minutes: 1 }
    }
}

impl FromNumbers for Date {
    ghost layout = { date_layout };

    fn at(n: &[i64], i: usize) -> Date {
        let there = numbers::there_at(n, i);
        if numbers::is_mark_at(n, i) {
            return Date {
                there,
                day: numbers::whole_at(n, i + 1),
                month: numbers::whole_at(n, i + 1 + 1),
                year: numbers::whole_at(n, i + 1 + 1 + 1),
            };
        }
        Date {
            there,
            day: 1,
            month: 0,
            year: 0,
        }
    }
}
