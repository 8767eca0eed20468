// ZDA: time, date and zone.
#![tactic(auto)]

ghost use Rattle.std.specs.Prelude.{◌≡◌};
ghost use Rattle.fields.specs.Parts.{parts_of};
ghost use Rattle.frame.specs.Written.{fault_at, Writes};
ghost use Rattle.numbers.specs.Told.{gives, Tells};
ghost use Rattle.kind_zda.specs.Row.{zda_at, zda_body, zda_fields, zda_from, zda_numbers, zda_told, zda_wrong};

use address::Talker;
use fields::Fields;
use form::Maybe;
use form::from_numbers::FromNumbers;
use form::got::{Got, GotInt};
use form_date::dates::GotDate;
use form_date::{Date, Zone};
use frame::Written;
use frame::record::Record;
use numbers::Told;

#[derive(Clone, Copy)]
pub struct Zda {
    pub time: Maybe,
    pub date: Date,
    pub zone: Zone,
}

// Lays the numbers of a record, in the order of docs/LAYOUT.md.
fn lay(out: &mut [i64], t: Talker, r: Zda) -> Told
    ensures { Tells (gives out.old 7 (zda_numbers t r)) result out.new }
{
    let talker = numbers::talker_number(t);
    let v = [
        talker as i64,
        r.time.there as i64,
        r.time.value as i64,
        r.date.there as i64,
        r.date.day as i64,
        r.date.month as i64,
        r.date.year as i64,
        r.zone.there as i64,
        r.zone.minutes as i64,
    ];
    numbers::tell(out, 7, &v)
}

// The record that numbers say; a number past the end is taken as 0.
pub fn at(n: &[i64]) -> Zda
    ensures { result ≡ zda_at n.now }
{
    Zda {
        time: Maybe::at(n, 1),
        date: Date::at(n, 3),
        zone: Zone::at(n, 7),
    }
}

// Lays the record, or refuses the first wrong field.
fn zda_from(out: &mut [i64], t: Talker, time: Got, date: GotDate, zone: GotInt) -> Told
    ensures { Tells (zda_from out.old t time date zone) result out.new }
{
    let w5 = form::keep::near(4, zone.wrong, 0);
    let w2 = form::keep::near(1, date.wrong, w5);
    let w1 = form::keep::near(0, time.wrong, w2);
    if w1 != 0 {
        return numbers::refuse(5, w1);
    }
    lay(
        out,
        t,
        Zda {
            time: time.into(),
            date: date.into(),
            zone: zone.into(),
        },
    )
}

// Reads the fields of a body, and lays the numbers of the record at the start of `out`. Refused: 4 where there are not so many
// fields as the kind has, 5 at the first wrong field, 8 where `out` is shorter than the record; then `out` is left.
//
//     $GPZDA,075140.00,15,11,2026,-00,30*4D
pub fn read(out: &mut [i64], t: Talker, f: Fields) -> Told
    ensures { Tells (zda_told out.old t f.entry.count (parts_of f.entry)) result out.new }
{
    if f.count != 6 {
        return numbers::refuse(4, 0);
    }
    let time = form_time::read::time(f.at(1));
    let date = form_date::dates::three(f.at(2), f.at(3), f.at(4));
    let zone = form_date::zones::two(f.at(5), f.at(6));
    zda_from(out, t, time, date, zone)
}

// The first value outside its range, by the number of its field, or 0.
fn wrong(r: Zda) -> usize
    ensures { result ≡ zda_wrong r }
{
    let w5 = form::keep::near(4, form::range::signed(r.zone.there, r.zone.minutes, 839), 0);
    let w2 = form::keep::near(1, form_date::range::three(r.date), w5);
    form::keep::near(0, form::range::maybe(r.time, 0, 8639999), w2)
}

impl Record for Zda {
    ghost fault = { λ r. fault_at (zda_wrong r) };

    ghost texts = { zda_fields };

    fn fault(self) -> Written {
        frame::fault(wrong(self))
    }

    fn put_fields(self, out: &mut [u8], at: usize) -> usize {
        let a0 = form_time::text::time(out, at, self.time);
        let a1 = form_date::text::three(out, a0, self.date);
        form_date::text::zone(out, a1, self.zone)
    }
}

// Writes the line of a record into `out`, and answers its length. Refused: 5 at the first value outside its
// range, 8 where `out` is shorter than the line.
//
//     $GPZDA,075140.00,15,11,2026,-00,30*4D
pub fn write(out: &mut [u8], t: Talker, r: Zda) -> Written
    ensures { Writes (fault_at (zda_wrong r)) (zda_body t r) out.old result out.new }
{
    frame::record::write_standard(out, t, b"ZDA", r)
}
