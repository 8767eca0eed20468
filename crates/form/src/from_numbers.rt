// A value of a record from numbers. A number that is no mark makes its value missing and not zero, which the writers refuse.
ghost use Rattle.std.specs.Prelude.{◌≤◌, ◌≡◌};
ghost use Rattle.form.specs.Numbers.{maybe_layout};
ghost use Rattle.numbers.specs.Layout.{Layout};

use crate::Maybe;

pub trait FromNumbers {
    ghost layout: { Layout Self };

    // The value whose numbers stand from place `i` on.
    fn at(n: &[i64], i: usize) -> Self
        requires { i ≤ 65540 }
        ensures { result ≡ layout.at n.now i };
}

impl FromNumbers for Maybe {
    ghost layout = { maybe_layout };

    fn at(n: &[i64], i: usize) -> Maybe {
        let there = numbers::there_at(n, i);
        if numbers::is_mark_at(n, i) {
            return Maybe {
                there,
                value: numbers::whole_at(n, i + 1),
            };
        }
        Maybe { there, value: 1 }
    }
}
