// RMC: time, status, position, speed in knots, course, date, variation and mode.
#![tactic(auto)]

ghost use Rattle.std.specs.Prelude.{◌≡◌};
ghost use Rattle.fields.specs.Parts.{parts_of};
ghost use Rattle.frame.specs.Written.{fault_at, Writes};
ghost use Rattle.numbers.specs.Told.{gives, Tells};
ghost use Rattle.kind_rmc.specs.Row.{rmc_at, rmc_body, rmc_fields, rmc_from, rmc_numbers, rmc_told, rmc_wrong};

use address::Talker;
use fields::Fields;
use form::Maybe;
use form::from_numbers::FromNumbers;
use form::got::{Got, GotInt};
use form_date::Date;
use form_date::dates::GotDate;
use form_number::{Knots, Number, Signed};
use form_position::{Place, Position};
use frame::Written;
use frame::record::Record;
use numbers::Told;

#[derive(Clone, Copy)]
pub struct Rmc {
    pub time: Maybe,
    pub status: u32,
    pub place: Place,
    pub speed: Knots,
    pub course: Number,
    pub date: Date,
    pub variation: Signed,
    pub mode: u32,
}

// Lays the numbers of a record, in the order of docs/LAYOUT.md.
fn lay(out: &mut [i64], t: Talker, r: Rmc) -> Told
    ensures { Tells (gives out.old 5 (rmc_numbers t r)) result out.new }
{
    let talker = numbers::talker_number(t);
    let v = [
        talker as i64,
        r.time.there as i64,
        r.time.value as i64,
        r.status as i64,
        r.place.there as i64,
        r.place.lat as i64,
        r.place.lon as i64,
        r.speed.there as i64,
        r.speed.value as i64,
        r.course.there as i64,
        r.course.value as i64,
        r.date.there as i64,
        r.date.day as i64,
        r.date.month as i64,
        r.date.year as i64,
        r.variation.there as i64,
        r.variation.value as i64,
        r.mode as i64,
    ];
    numbers::tell(out, 5, &v)
}

// The record that numbers say; a number past the end is taken as 0.
pub fn at(n: &[i64]) -> Rmc
    ensures { result ≡ rmc_at n.now }
{
    Rmc {
        time: Maybe::at(n, 1),
        status: numbers::whole_at(n, 3),
        place: Place::at(n, 4),
        speed: Knots::at(n, 7),
        course: Number::at(n, 9),
        date: Date::at(n, 11),
        variation: Signed::at(n, 15),
        mode: numbers::whole_at(n, 17),
    }
}

// Lays the record, or refuses the first wrong field.
fn rmc_from(
    out: &mut [i64],
    t: Talker,
    time: Got,
    status: Got,
    place: Position,
    speed: Got,
    course: Got,
    date: GotDate,
    variation: GotInt,
    mode: Got,
) -> Told
    ensures { Tells (rmc_from out.old t time status place speed course date variation mode) result out.new }
{
    let w12 = form::keep::near(11, mode.wrong, 0);
    let w10 = form::keep::near(9, variation.wrong, w12);
    let w9 = form::keep::near(8, date.wrong, w10);
    let w8 = form::keep::near(7, course.wrong, w9);
    let w7 = form::keep::near(6, speed.wrong, w8);
    let w3 = form::keep::near(2, place.wrong, w7);
    let w2 = form::keep::near(1, status.wrong, w3);
    let w1 = form::keep::near(0, time.wrong, w2);
    if w1 != 0 {
        return numbers::refuse(5, w1);
    }
    lay(
        out,
        t,
        Rmc {
            time: time.into(),
            status: status.value,
            place: place.into(),
            speed: speed.into(),
            course: course.into(),
            date: date.into(),
            variation: variation.into(),
            mode: mode.value,
        },
    )
}

// Reads the fields of a body, and lays the numbers of the record at the start of `out`. Refused: 4 where there are not so many
// fields as the kind has, 5 at the first wrong field, 8 where `out` is shorter than the record; then `out` is left.
//
//     $GPRMC,075140.00,A,5550.6111,N,03732.2534,E,4.2,182.1,151126,10.5,E,A*0D
pub fn read(out: &mut [i64], t: Talker, f: Fields) -> Told
    ensures { Tells (rmc_told out.old t f.entry.count (parts_of f.entry)) result out.new }
{
    if f.count != 12 {
        return numbers::refuse(4, 0);
    }
    let time = form_time::read::time(f.at(1));
    let status = form_letter::read::letter(f.at(2), b"AV");
    let place = form_position::read::position(f.at(3), f.at(4), f.at(5), f.at(6));
    let speed = form_number::read::number(f.at(7));
    let course = form_number::read::below(f.at(8), 360000);
    let date = form_date::dates::six(f.at(9));
    let variation = form_position::read::variation(f.at(10), f.at(11));
    let mode = form_letter::read::letter(f.at(12), b"ADEMSN");
    rmc_from(
        out, t, time, status, place, speed, course, date, variation, mode,
    )
}

// The first value outside its range, by the number of its field, or 0.
fn wrong(r: Rmc) -> usize
    ensures { result ≡ rmc_wrong r }
{
    let w12 = form::keep::near(11, form_letter::range::letter(r.mode, b"ADEMSN"), 0);
    let w10 = form::keep::near(
        9,
        form::range::signed(r.variation.there, r.variation.value, 179999),
        w12,
    );
    let w9 = form::keep::near(8, form_date::range::six(r.date), w10);
    let w8 = form::keep::near(7, form::range::maybe(r.course, 0, 359999), w9);
    let w7 = form::keep::near(6, form::range::maybe(r.speed, 0, 999999999), w8);
    let w3 = form::keep::near(2, form_position::range::place(r.place), w7);
    let w2 = form::keep::near(1, form_letter::range::letter(r.status, b"AV"), w3);
    form::keep::near(0, form::range::maybe(r.time, 0, 8639999), w2)
}

impl Record for Rmc {
    ghost fault = { λ r. fault_at (rmc_wrong r) };

    ghost texts = { rmc_fields };

    fn fault(self) -> Written {
        frame::fault(wrong(self))
    }

    fn put_fields(self, out: &mut [u8], at: usize) -> usize {
        let a0 = form_time::text::time(out, at, self.time);
        let a1 = form_letter::text::letter(out, a0, self.status);
        let a2 = form_position::text::place(out, a1, self.place);
        let a3 = form_number::text::number(out, a2, self.speed);
        let a4 = form_number::text::number(out, a3, self.course);
        let a5 = form_date::text::six(out, a4, self.date);
        let a6 = form_position::text::variation(out, a5, self.variation);
        form_letter::text::letter(out, a6, self.mode)
    }
}

// Writes the line of a record into `out`, and answers its length. Refused: 5 at the first value outside its
// range, 1 where the line would pass 82 bytes, 8 where `out` is shorter than the line.
//
//     $GPRMC,075140.00,A,5550.6111,N,03732.2534,E,4.2,182.1,151126,10.5,E,A*0D
pub fn write(out: &mut [u8], t: Talker, r: Rmc) -> Written
    ensures { Writes (fault_at (rmc_wrong r)) (rmc_body t r) out.old result out.new }
{
    frame::record::write_standard(out, t, b"RMC", r)
}
