// GLL: position, time, status and mode.
#![tactic(auto)]

ghost use Rattle.std.specs.Prelude.{◌≡◌};
ghost use Rattle.fields.specs.Parts.{parts_of};
ghost use Rattle.frame.specs.Written.{fault_at, Writes};
ghost use Rattle.numbers.specs.Told.{gives, Tells};
ghost use Rattle.kind_gll.specs.Row.{gll_at, gll_body, gll_fields, gll_from, gll_numbers, gll_told, gll_wrong};

use address::Talker;
use fields::Fields;
use form::Maybe;
use form::from_numbers::FromNumbers;
use form::got::Got;
use form_position::{Place, Position};
use frame::Written;
use frame::record::Record;
use numbers::Told;

#[derive(Clone, Copy)]
pub struct Gll {
    pub place: Place,
    pub time: Maybe,
    pub status: u32,
    pub mode: u32,
}

// Lays the numbers of a record, in the order of docs/LAYOUT.md.
fn lay(out: &mut [i64], t: Talker, r: Gll) -> Told
    ensures { Tells (gives out.old 2 (gll_numbers t r)) result out.new }
{
    let talker = numbers::talker_number(t);
    let v = [
        talker as i64,
        r.place.there as i64,
        r.place.lat as i64,
        r.place.lon as i64,
        r.time.there as i64,
        r.time.value as i64,
        r.status as i64,
        r.mode as i64,
    ];
    numbers::tell(out, 2, &v)
}

// The record that numbers say; a number past the end is taken as 0.
pub fn at(n: &[i64]) -> Gll
    ensures { result ≡ gll_at n.now }
{
    Gll {
        place: Place::at(n, 1),
        time: Maybe::at(n, 4),
        status: numbers::whole_at(n, 6),
        mode: numbers::whole_at(n, 7),
    }
}

// Lays the record, or refuses the first wrong field.
fn gll_from(out: &mut [i64], t: Talker, place: Position, time: Got, status: Got, mode: Got) -> Told
    ensures { Tells (gll_from out.old t place time status mode) result out.new }
{
    let w7 = form::keep::near(6, mode.wrong, 0);
    let w6 = form::keep::near(5, status.wrong, w7);
    let w5 = form::keep::near(4, time.wrong, w6);
    let w1 = form::keep::near(0, place.wrong, w5);
    if w1 != 0 {
        return numbers::refuse(5, w1);
    }
    lay(
        out,
        t,
        Gll {
            place: place.into(),
            time: time.into(),
            status: status.value,
            mode: mode.value,
        },
    )
}

// Reads the fields of a body, and lays the numbers of the record at the start of `out`. Refused: 4 where there are not so many
// fields as the kind has, 5 at the first wrong field, 8 where `out` is shorter than the record; then `out` is left.
//
//     $GPGLL,5550.6111,N,03732.2534,E,075140.00,A,A*69
pub fn read(out: &mut [i64], t: Talker, f: Fields) -> Told
    ensures { Tells (gll_told out.old t f.entry.count (parts_of f.entry)) result out.new }
{
    if f.count != 7 {
        return numbers::refuse(4, 0);
    }
    let place = form_position::read::position(f.at(1), f.at(2), f.at(3), f.at(4));
    let time = form_time::read::time(f.at(5));
    let status = form_letter::read::letter(f.at(6), b"AV");
    let mode = form_letter::read::letter(f.at(7), b"ADEMSN");
    gll_from(out, t, place, time, status, mode)
}

// The first value outside its range, by the number of its field, or 0.
fn wrong(r: Gll) -> usize
    ensures { result ≡ gll_wrong r }
{
    let w7 = form::keep::near(6, form_letter::range::letter(r.mode, b"ADEMSN"), 0);
    let w6 = form::keep::near(5, form_letter::range::letter(r.status, b"AV"), w7);
    let w5 = form::keep::near(4, form::range::maybe(r.time, 0, 8639999), w6);
    form::keep::near(0, form_position::range::place(r.place), w5)
}

impl Record for Gll {
    ghost fault = { λ r. fault_at (gll_wrong r) };

    ghost texts = { gll_fields };

    fn fault(self) -> Written {
        frame::fault(wrong(self))
    }

    fn put_fields(self, out: &mut [u8], at: usize) -> usize {
        let a0 = form_position::text::place(out, at, self.place);
        let a1 = form_time::text::time(out, a0, self.time);
        let a2 = form_letter::text::letter(out, a1, self.status);
        form_letter::text::letter(out, a2, self.mode)
    }
}

// Writes the line of a record into `out`, and answers its length. Refused: 5 at the first value outside its
// range, 8 where `out` is shorter than the line.
//
//     $GPGLL,5550.6111,N,03732.2534,E,075140.00,A,A*69
pub fn write(out: &mut [u8], t: Talker, r: Gll) -> Written
    ensures { Writes (fault_at (gll_wrong r)) (gll_body t r) out.old result out.new }
{
    frame::record::write_standard(out, t, b"GLL", r)
}
