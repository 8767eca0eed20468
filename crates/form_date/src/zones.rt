// The time zone.
ghost use Rattle.std.specs.Prelude.{◌≡◌};
ghost use Rattle.form.specs.Got.{maybe_int_of, within_of};
ghost use Rattle.form_date.specs.Zone.{bare_of, minus, wrong_zone, zone_at, zone_four, zone_four_form, zone_two};

use digits::pair::pair_at;
use form::got::GotInt;

// Whether a field begins with a minus.
fn is_minus(f: &[u8]) -> bool
    ensures { result ≡ minus f.now }
{
    f.first() == Some(&b'-')
}

// A field without its minus.
fn bare(f: &[u8]) -> &[u8]
    ensures { result.now ≡ bare_of f.now }
{
    f.strip_prefix(b"-").unwrap_or(f)
}

// A field that is wrong.
fn wrong_zone(wrong: u8) -> GotInt
    ensures { result ≡ wrong_zone wrong }
{
    GotInt {
        wrong,
        there: true,
        value: 0,
    }
}

// The zone of hours and minutes and a sign that covers both: joined, then negated. Hours that are bad
// or past 13 are wrong at 1; at `n` minutes that are bad or past 59, and a minus with zero in all.
fn zone_at(negative: bool, hours: Option<u32>, minutes: Option<u32>, n: u8) -> GotInt
    ensures { result ≡ zone_at n negative (within_of 0 13 hours) (within_of 0 59 minutes) }
{
    let Some(h) = form::got::within(hours, 0, 13) else {
        return wrong_zone(1);
    };
    let Some(m) = form::got::within(minutes, 0, 59) else {
        return wrong_zone(n);
    };
    let v = h * 60 + m;
    if negative && v == 0 {
        return wrong_zone(n);
    }
    GotInt {
        wrong: 0,
        there: true,
        value: digits::sign::held(v, negative),
    }
}

// `-00,30`: hours and minutes in a field each, in signed minutes; both are empty, and then missing, or
// none. `-00,00` is wrong at the minutes.
pub fn two(hours: &[u8], minutes: &[u8]) -> GotInt
    ensures { result ≡ zone_two hours.now minutes.now }
{
    if hours.is_empty() {
        return GotInt {
            wrong: if minutes.is_empty() { 0 } else { 2 },
            ..GotInt::default()
        };
    }
    let h = digits::digits(bare(hours), 2, 2);
    zone_at(is_minus(hours), h, digits::digits(minutes, 2, 2), 2)
}

// `-0030`: hours and minutes in one field, in signed minutes; an empty one is missing, and any other,
// `-0000` too, is wrong.
pub fn four(f: &[u8]) -> GotInt
    ensures { result ≡ maybe_int_of f.now (zone_four f.now) }
{
    if f.is_empty() {
        return GotInt::default();
    }
    let b = bare(f);
    if b.len() != 4 {
        return wrong_zone(1);
    }
    zone_at(is_minus(f), pair_at(b, 0), pair_at(b, 2), 1)
}
