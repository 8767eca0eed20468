// The receiver's settings as eleven numbers in a lent slice.
#![tactic(auto)]

ghost use Rattle.std.specs.Prelude.{◌≡◌, leb, length};
ghost use Rattle.numbers.specs.Numbers.{laid};
ghost use Rattle.receiver_numbers.specs.Numbers.{setting_numbers, settings_at, said};

use receiver::{Port, Settings};

// Stores the eleven numbers of settings at the start of `out` and answers whether there was room; where there
// was none, `out` is left.
pub fn lay(out: &mut [i64], s: Settings) -> bool
    ensures value { result ≡ leb 11 (length out.old) }
    ensures out_after { out.new ≡ laid (setting_numbers s) out.old }
{
    let values = [
        s.first.rate as i64,
        s.first.protocol as i64,
        s.first.mask as i64,
        s.second.rate as i64,
        s.second.protocol as i64,
        s.second.mask as i64,
        s.datum as i64,
        s.zone as i64,
        s.gps as i64,
        s.glonass as i64,
        s.code as i64,
    ];
    numbers::lay(out, &values)
}

// Whether numbers say settings: there are eleven, and 32 bits hold the GPS mask.
pub fn are_said(numbers: &[i64]) -> bool
    ensures { result ≡ said numbers.now }
{
    11 <= numbers.len() && numbers::is_whole_at(numbers, 8)
}

// The settings that numbers say; one past their end is taken as 0. Drawn into its callers, which know how many numbers there are.
#[inline(always)]
pub fn at(numbers: &[i64]) -> Settings
    ensures { result ≡ settings_at numbers.now }
{
    let first = Port {
        rate: numbers::whole_at(numbers, 0),
        protocol: numbers::whole_at(numbers, 1),
        mask: numbers::whole_at(numbers, 2),
    };
    let second = Port {
        rate: numbers::whole_at(numbers, 3),
        protocol: numbers::whole_at(numbers, 4),
        mask: numbers::whole_at(numbers, 5),
    };
    Settings {
        first,
        second,
        datum: numbers::whole_at(numbers, 6),
        zone: numbers::signed_at(numbers, 7),
        gps: numbers::whole_at(numbers, 8),
        glonass: numbers::whole_at(numbers, 9),
        code: numbers::whole_at(numbers, 10),
    }
}
