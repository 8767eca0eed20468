// The date.
ghost use Rattle.std.specs.Prelude.{◌≡◌, option_map};
ghost use Rattle.digits.specs.Sign.{Under};
ghost use Rattle.form_date.specs.Calendar.{days_in, is_date, leap_year};
ghost use Rattle.form_date.specs.Dates.{date_at, date_six, date_three, full_year, no_date};

use digits::pair::pair_at;

// Which of the fields is wrong, counted from 1, or 0 for none; whether the date is there; and its
// parts, 0 where it is missing or wrong.
#[derive(Clone, Copy, Default)]
pub struct GotDate {
    pub wrong: u8,
    pub there: bool,
    pub day: u32,
    pub month: u32,
    pub year: u32,
}

// Whether a year has a 29th of February.
fn is_leap(year: u32) -> bool
    ensures { result ≡ leap_year year }
{
    (year % 4 == 0 && year % 100 != 0) || year % 400 == 0
}

// The days of a month, counted from 1; 0 for what is no month.
fn days_in(month: u32, year: u32) -> u32
    ensures { result ≡ days_in month year }
{
    match month {
        2 if is_leap(year) => 29,
        2 => 28,
        4 | 6 | 9 | 11 => 30,
        1..=12 => 31,
        _ => 0,
    }
}

// Whether there is such a date from 1980 to 2079.
pub fn is_date(day: u32, month: u32, year: u32) -> bool
    ensures { result ≡ is_date day month year }
{
    1980 <= year && year <= 2079 && 1 <= day && day <= days_in(month, year)
}

// No date: missing where `wrong` is 0.
fn no_date(wrong: u8) -> GotDate
    ensures { result ≡ no_date wrong }
{
    GotDate {
        wrong,
        ..GotDate::default()
    }
}

// The date of a day, a month and a year, which stand in the fields `a`, `b` and `c`. The first that is
// none is wrong, and the last where there is no such date.
fn date_at(day: Option<u32>, month: Option<u32>, year: Option<u32>, a: u8, b: u8, c: u8) -> GotDate
    ensures { result ≡ date_at a b c day month year }
{
    let Some(day) = day else {
        return no_date(a);
    };
    let Some(month) = month else {
        return no_date(b);
    };
    let Some(year) = year else {
        return no_date(c);
    };
    if !is_date(day, month, year) {
        return no_date(c);
    }
    GotDate {
        wrong: 0,
        there: true,
        day,
        month,
        year,
    }
}

// The year that two digits mean.
fn full_year(n: Option<u32>) -> Option<u32>
    requires { Under 100 n }
    ensures { result ≡ option_map full_year n }
{
    let yy = n?;
    Some(if yy < 80 { 2000 + yy } else { 1900 + yy })
}

// `290200`: day, month and year in one field; an empty one is missing, and any other than a real date
// from 1980 to 2079 is wrong.
pub fn six(f: &[u8]) -> GotDate
    ensures { result ≡ date_six f.now }
{
    if f.is_empty() {
        return no_date(0);
    }
    if f.len() != 6 {
        return no_date(1);
    }
    date_at(
        pair_at(f, 0),
        pair_at(f, 2),
        full_year(pair_at(f, 4)),
        1,
        1,
        1,
    )
}

// `29,02,2000`: day, month and year in a field each; all are empty, and then missing, or none. The
// first wrong field is refused, and the last where there is no such date.
pub fn three(day: &[u8], month: &[u8], year: &[u8]) -> GotDate
    ensures { result ≡ date_three day.now month.now year.now }
{
    if day.is_empty() {
        return if !month.is_empty() {
            no_date(2)
        } else if !year.is_empty() {
            no_date(3)
        } else {
            no_date(0)
        };
    }
    let d = form::got::within(digits::digits(day, 2, 2), 1, 31);
    let m = form::got::within(digits::digits(month, 2, 2), 1, 12);
    date_at(d, m, digits::digits(year, 4, 4), 1, 2, 3)
}
