// VTG: true and magnetic course, speed in knots and in km/h, and mode.
#![tactic(auto)]

ghost use Rattle.std.specs.Prelude.{◌≡◌};
ghost use Rattle.fields.specs.Parts.{parts_of};
ghost use Rattle.frame.specs.Written.{fault_at, Writes};
ghost use Rattle.numbers.specs.Told.{gives, Tells};
ghost use Rattle.kind_vtg.specs.Row.{vtg_at, vtg_body, vtg_fields, vtg_from, vtg_numbers, vtg_told, vtg_wrong};

use address::Talker;
use fields::Fields;
use form::from_numbers::FromNumbers;
use form::got::Got;
use form_number::{Kmh, Knots, Number};
use frame::Written;
use frame::record::Record;
use numbers::Told;

#[derive(Clone, Copy)]
pub struct Vtg {
    pub course: Number,
    pub magnetic: Number,
    pub knots: Knots,
    pub kmh: Kmh,
    pub mode: u32,
}

// Lays the numbers of a record, in the order of docs/LAYOUT.md.
fn lay(out: &mut [i64], t: Talker, r: Vtg) -> Told
    ensures { Tells (gives out.old 6 (vtg_numbers t r)) result out.new }
{
    let talker = numbers::talker_number(t);
    let v = [
        talker as i64,
        r.course.there as i64,
        r.course.value as i64,
        r.magnetic.there as i64,
        r.magnetic.value as i64,
        r.knots.there as i64,
        r.knots.value as i64,
        r.kmh.there as i64,
        r.kmh.value as i64,
        r.mode as i64,
    ];
    numbers::tell(out, 6, &v)
}

// The record that numbers say; a number past the end is taken as 0.
pub fn at(n: &[i64]) -> Vtg
    ensures { result ≡ vtg_at n.now }
{
    Vtg {
        course: Number::at(n, 1),
        magnetic: Number::at(n, 3),
        knots: Knots::at(n, 5),
        kmh: Kmh::at(n, 7),
        mode: numbers::whole_at(n, 9),
    }
}

// Lays the record, or refuses the first wrong field.
fn vtg_from(
    out: &mut [i64],
    t: Talker,
    course: Got,
    t2: u8,
    magnetic: Got,
    m4: u8,
    speed: Got,
    n6: u8,
    metric: Got,
    k8: u8,
    mode: Got,
) -> Told
    ensures { Tells (vtg_from out.old t course t2 magnetic m4 speed n6 metric k8 mode) result out.new }
{
    let w9 = form::keep::near(8, mode.wrong, 0);
    let w8 = form::keep::near(7, k8, w9);
    let w7 = form::keep::near(6, metric.wrong, w8);
    let w6 = form::keep::near(5, n6, w7);
    let w5 = form::keep::near(4, speed.wrong, w6);
    let w4 = form::keep::near(3, m4, w5);
    let w3 = form::keep::near(2, magnetic.wrong, w4);
    let w2 = form::keep::near(1, t2, w3);
    let w1 = form::keep::near(0, course.wrong, w2);
    if w1 != 0 {
        return numbers::refuse(5, w1);
    }
    lay(
        out,
        t,
        Vtg {
            course: course.into(),
            magnetic: magnetic.into(),
            knots: speed.into(),
            kmh: metric.into(),
            mode: mode.value,
        },
    )
}

// Reads the fields of a body, and lays the numbers of the record at the start of `out`. Refused: 4 where there are not so many
// fields as the kind has, 5 at the first wrong field, 8 where `out` is shorter than the record; then `out` is left.
//
//     $GPVTG,182.1,T,171.6,M,4.2,N,7.8,K,A*21
pub fn read(out: &mut [i64], t: Talker, f: Fields) -> Told
    ensures { Tells (vtg_told out.old t f.entry.count (parts_of f.entry)) result out.new }
{
    if f.count != 9 {
        return numbers::refuse(4, 0);
    }
    let course = form_number::read::below(f.at(1), 360000);
    let t2 = form::unit::unit(f.at(2), course.there, b'T');
    let magnetic = form_number::read::below(f.at(3), 360000);
    let m4 = form::unit::unit(f.at(4), magnetic.there, b'M');
    let speed = form_number::read::number(f.at(5));
    let n6 = form::unit::unit(f.at(6), speed.there, b'N');
    let metric = form_number::read::number(f.at(7));
    let k8 = form::unit::unit(f.at(8), metric.there, b'K');
    let mode = form_letter::read::letter(f.at(9), b"ADEMSN");
    vtg_from(
        out, t, course, t2, magnetic, m4, speed, n6, metric, k8, mode,
    )
}

// The first value outside its range, by the number of its field, or 0.
fn wrong(r: Vtg) -> usize
    ensures { result ≡ vtg_wrong r }
{
    let w9 = form::keep::near(8, form_letter::range::letter(r.mode, b"ADEMSN"), 0);
    let w7 = form::keep::near(6, form::range::maybe(r.kmh, 0, 999999999), w9);
    let w5 = form::keep::near(4, form::range::maybe(r.knots, 0, 999999999), w7);
    let w3 = form::keep::near(2, form::range::maybe(r.magnetic, 0, 359999), w5);
    form::keep::near(0, form::range::maybe(r.course, 0, 359999), w3)
}

impl Record for Vtg {
    ghost fault = { λ r. fault_at (vtg_wrong r) };

    ghost texts = { vtg_fields };

    fn fault(self) -> Written {
        frame::fault(wrong(self))
    }

    fn put_fields(self, out: &mut [u8], at: usize) -> usize {
        let a0 = form_number::text::number(out, at, self.course);
        let a1 = form::text::unit(out, a0, self.course.there, b'T');
        let a2 = form_number::text::number(out, a1, self.magnetic);
        let a3 = form::text::unit(out, a2, self.magnetic.there, b'M');
        let a4 = form_number::text::number(out, a3, self.knots);
        let a5 = form::text::unit(out, a4, self.knots.there, b'N');
        let a6 = form_number::text::number(out, a5, self.kmh);
        let a7 = form::text::unit(out, a6, self.kmh.there, b'K');
        form_letter::text::letter(out, a7, self.mode)
    }
}

// Writes the line of a record into `out`, and answers its length. Refused: 5 at the first value outside its
// range, 8 where `out` is shorter than the line.
//
//     $GPVTG,182.1,T,171.6,M,4.2,N,7.8,K,A*21
pub fn write(out: &mut [u8], t: Talker, r: Vtg) -> Written
    ensures { Writes (fault_at (vtg_wrong r)) (vtg_body t r) out.old result out.new }
{
    frame::record::write_standard(out, t, b"VTG", r)
}
