// GGA: time, position, quality, satellites, HDOP, altitude, geoid, age and station.
#![tactic(auto)]

ghost use Rattle.std.specs.Prelude.{◌≡◌};
ghost use Rattle.fields.specs.Parts.{parts_of};
ghost use Rattle.frame.specs.Written.{fault_at, Writes};
ghost use Rattle.numbers.specs.Told.{gives, Tells};
ghost use Rattle.kind_gga.specs.Row.{gga_at, gga_body, gga_fields, gga_from, gga_numbers, gga_told, gga_wrong};

use address::Talker;
use fields::Fields;
use form::Maybe;
use form::from_numbers::FromNumbers;
use form::got::{Got, GotInt};
use form_number::{Number, Signed};
use form_position::{Place, Position};
use frame::Written;
use frame::record::Record;
use numbers::Told;

#[derive(Clone, Copy)]
pub struct Gga {
    pub time: Maybe,
    pub place: Place,
    pub quality: u32,
    pub satellites: Maybe,
    pub hdop: Number,
    pub altitude: Signed,
    pub geoid: Signed,
    pub age: Number,
    pub station: Maybe,
}

// Lays the numbers of a record, in the order of docs/LAYOUT.md.
fn lay(out: &mut [i64], t: Talker, r: Gga) -> Told
    ensures { Tells (gives out.old 1 (gga_numbers t r)) result out.new }
{
    let talker = numbers::talker_number(t);
    let v = [
        talker as i64,
        r.time.there as i64,
        r.time.value as i64,
        r.place.there as i64,
        r.place.lat as i64,
        r.place.lon as i64,
        r.quality as i64,
        r.satellites.there as i64,
        r.satellites.value as i64,
        r.hdop.there as i64,
        r.hdop.value as i64,
        r.altitude.there as i64,
        r.altitude.value as i64,
        r.geoid.there as i64,
        r.geoid.value as i64,
        r.age.there as i64,
        r.age.value as i64,
        r.station.there as i64,
        r.station.value as i64,
    ];
    numbers::tell(out, 1, &v)
}

// The record that numbers say; a number past the end is taken as 0.
pub fn at(n: &[i64]) -> Gga
    ensures { result ≡ gga_at n.now }
{
    Gga {
        time: Maybe::at(n, 1),
        place: Place::at(n, 3),
        quality: numbers::whole_at(n, 6),
        satellites: Maybe::at(n, 7),
        hdop: Number::at(n, 9),
        altitude: Signed::at(n, 11),
        geoid: Signed::at(n, 13),
        age: Number::at(n, 15),
        station: Maybe::at(n, 17),
    }
}

// Lays the record, or refuses the first wrong field.
fn gga_from(
    out: &mut [i64],
    t: Talker,
    time: Got,
    place: Position,
    quality: Got,
    satellites: Got,
    hdop: Got,
    altitude: GotInt,
    m10: u8,
    geoid: GotInt,
    m12: u8,
    age: Got,
    station: Got,
) -> Told
    ensures { Tells (gga_from out.old t time place quality satellites hdop altitude m10 geoid m12 age station) result
        out.new }
{
    let w14 = form::keep::near(13, station.wrong, 0);
    let w13 = form::keep::near(12, age.wrong, w14);
    let w12 = form::keep::near(11, m12, w13);
    let w11 = form::keep::near(10, geoid.wrong, w12);
    let w10 = form::keep::near(9, m10, w11);
    let w9 = form::keep::near(8, altitude.wrong, w10);
    let w8 = form::keep::near(7, hdop.wrong, w9);
    let w7 = form::keep::near(6, satellites.wrong, w8);
    let w6 = form::keep::near(5, quality.wrong, w7);
    let w2 = form::keep::near(1, place.wrong, w6);
    let w1 = form::keep::near(0, time.wrong, w2);
    if w1 != 0 {
        return numbers::refuse(5, w1);
    }
    lay(
        out,
        t,
        Gga {
            time: time.into(),
            place: place.into(),
            quality: quality.value,
            satellites: satellites.into(),
            hdop: hdop.into(),
            altitude: altitude.into(),
            geoid: geoid.into(),
            age: age.into(),
            station: station.into(),
        },
    )
}

// Reads the fields of a body, and lays the numbers of the record at the start of `out`. Refused: 4 where there are not so many
// fields as the kind has, 5 at the first wrong field, 8 where `out` is shorter than the record; then `out` is left.
//
//     $GPGGA,075140.00,5550.6111,N,03732.2534,E,1,05,1.2,188.8,M,14.4,M,,*62
pub fn read(out: &mut [i64], t: Talker, f: Fields) -> Told
    ensures { Tells (gga_told out.old t f.entry.count (parts_of f.entry)) result out.new }
{
    if f.count != 14 {
        return numbers::refuse(4, 0);
    }
    let time = form_time::read::time(f.at(1));
    let place = form_position::read::position(f.at(2), f.at(3), f.at(4), f.at(5));
    let quality = form_number::fixed::exact(f.at(6), 1, 0, 8);
    let satellites = form_number::fixed::fixed(f.at(7), 2, 0, 99);
    let hdop = form_number::read::number(f.at(8));
    let altitude = form_number::read::height(f.at(9));
    let m10 = form::unit::unit(f.at(10), altitude.there, b'M');
    let geoid = form_number::read::height(f.at(11));
    let m12 = form::unit::unit(f.at(12), geoid.there, b'M');
    let age = form_number::read::number(f.at(13));
    let station = form_number::fixed::fixed(f.at(14), 4, 0, 1023);
    gga_from(
        out, t, time, place, quality, satellites, hdop, altitude, m10, geoid, m12, age, station,
    )
}

// The first value outside its range, by the number of its field, or 0.
fn wrong(r: Gga) -> usize
    ensures { result ≡ gga_wrong r }
{
    let w14 = form::keep::near(13, form::range::maybe(r.station, 0, 1023), 0);
    let w13 = form::keep::near(12, form::range::maybe(r.age, 0, 999999999), w14);
    let w11 = form::keep::near(
        10,
        form::range::signed(r.geoid.there, r.geoid.value, 999999999),
        w13,
    );
    let w9 = form::keep::near(
        8,
        form::range::signed(r.altitude.there, r.altitude.value, 999999999),
        w11,
    );
    let w8 = form::keep::near(7, form::range::maybe(r.hdop, 0, 999999999), w9);
    let w7 = form::keep::near(6, form::range::maybe(r.satellites, 0, 99), w8);
    let w6 = form::keep::near(5, form::range::within(r.quality, 0, 8), w7);
    let w2 = form::keep::near(1, form_position::range::place(r.place), w6);
    form::keep::near(0, form::range::maybe(r.time, 0, 8639999), w2)
}

impl Record for Gga {
    ghost fault = { λ r. fault_at (gga_wrong r) };

    ghost texts = { gga_fields };

    fn fault(self) -> Written {
        frame::fault(wrong(self))
    }

    fn put_fields(self, out: &mut [u8], at: usize) -> usize {
        let a0 = form_time::text::time(out, at, self.time);
        let a1 = form_position::text::place(out, a0, self.place);
        let a2 = form_number::text::one(out, a1, self.quality);
        let a3 = form_number::text::two(out, a2, self.satellites);
        let a4 = form_number::text::number(out, a3, self.hdop);
        let a5 = form_number::text::height(out, a4, self.altitude);
        let a6 = form::text::unit(out, a5, self.altitude.there, b'M');
        let a7 = form_number::text::height(out, a6, self.geoid);
        let a8 = form::text::unit(out, a7, self.geoid.there, b'M');
        let a9 = form_number::text::number(out, a8, self.age);
        form_number::text::four(out, a9, self.station)
    }
}

// Writes the line of a record into `out`, and answers its length. Refused: 5 at the first value outside its
// range, 1 where the line would pass 82 bytes, 8 where `out` is shorter than the line.
//
//     $GPGGA,075140.00,5550.6111,N,03732.2534,E,1,05,1.2,188.8,M,14.4,M,,*62
pub fn write(out: &mut [u8], t: Talker, r: Gga) -> Written
    ensures { Writes (fault_at (gga_wrong r)) (gga_body t r) out.old result out.new }
{
    frame::record::write_standard(out, t, b"GGA", r)
}
