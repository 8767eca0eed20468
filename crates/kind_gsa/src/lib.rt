// GSA: selection, fix, twelve satellites, PDOP, HDOP and VDOP.
#![tactic(auto)]

ghost use Rattle.std.specs.Prelude.{[], ◌∷◌, ◌≡◌, map};
ghost use Rattle.put.specs.Wrote.{held, PutsFields};
ghost use Rattle.fields.specs.Parts.{parts_of};
ghost use Rattle.frame.specs.Written.{fault_at, Writes};
ghost use Rattle.form.specs.Numbers.{maybe_layout};
ghost use Rattle.numbers.specs.Layout.{list_at, list_numbers};
ghost use Rattle.numbers.specs.Numbers.{laid};
ghost use Rattle.numbers.specs.Told.{gives, Tells};
ghost use Rattle.kind_gsa.specs.Row.{gsa_at, gsa_numbers, gsa_told};
ghost use Rattle.kind_gsa.specs.Row.{gsa_body, gsa_fields, gsa_from, gsa_wrong, satellite_text, twelve_in, twelve_of};
ghost use Rattle.kind_gsa.specs.Row.{twelve_row};

use address::Talker;
use fields::Fields;
use form::Maybe;
use form::from_numbers::FromNumbers;
use form::got::Got;
use form_number::Number;
use frame::Written;
use frame::record::Record;
use numbers::Told;

#[derive(Clone, Copy)]
pub struct Gsa {
    pub selection: u32,
    pub fix: u32,
    pub satellites: [Maybe; 12],
    pub pdop: Number,
    pub hdop: Number,
    pub vdop: Number,
}

// Stores the two numbers of a satellite of a GSA at the start of `out`, where there is room for them.
fn lay_satellite(out: &mut [i64], m: Maybe) -> bool
    ensures { out.new ≡ laid (maybe_layout.numbers m []) out.old }
{
    let v = [m.there as i64, m.value as i64];
    numbers::lay(out, &v)
}

// The same for its twelve.
fn lay_twelve(out: &mut [i64], s: [Maybe; 12]) -> bool
    ensures { out.new ≡ laid (list_numbers maybe_layout s []) out.old }
{
    if out.len() < 24 {
        return false;
    }
    for i in 0..s.len() {
        lay_satellite(&mut out[2 * i..], s[i]);
    }
    true
}

// Lays the numbers of a record, in the order of docs/LAYOUT.md.
fn lay(out: &mut [i64], t: Talker, r: Gsa) -> Told
    ensures { Tells (gives out.old 3 (gsa_numbers t r)) result out.new }
{
    if out.len() < 33 {
        return numbers::refuse(8, 0);
    }
    let talker = numbers::talker_number(t);
    let first = [talker as i64, r.selection as i64, r.fix as i64];
    let last = [
        r.pdop.there as i64,
        r.pdop.value as i64,
        r.hdop.there as i64,
        r.hdop.value as i64,
        r.vdop.there as i64,
        r.vdop.value as i64,
    ];
    let satellites = r.satellites;
    numbers::lay(out, &first);
    lay_twelve(&mut out[3..], satellites);
    numbers::lay(&mut out[27..], &last);
    numbers::bare(3)
}

// The twelve satellites of a GSA.
fn twelve_at(n: &[i64]) -> [Maybe; 12]
    ensures { result ≡ list_at maybe_layout n.now 3 12 }
{
    let mut s = [Maybe {
        there: false,
        value: 0,
    }; 12];
    for i in 0..12 {
        s[i] = Maybe::at(n, 3 + 2 * i);
    }
    s
}

// The record that numbers say; a number past the end is taken as 0.
pub fn at(n: &[i64]) -> Gsa
    ensures { result ≡ gsa_at n.now }
{
    Gsa {
        selection: numbers::whole_at(n, 1),
        fix: numbers::whole_at(n, 2),
        satellites: twelve_at(n),
        pdop: Number::at(n, 27),
        hdop: Number::at(n, 29),
        vdop: Number::at(n, 31),
    }
}

// The twelve satellites, and the first wrong field from theirs on.
#[derive(Clone, Copy)]
struct Twelve {
    wrong: usize,
    satellites: [Maybe; 12],
}

// The twelve satellites of fields 3 to 14; `rest` is the first wrong field after them.
fn twelve_from(
    a1: Got,
    a2: Got,
    a3: Got,
    a4: Got,
    a5: Got,
    a6: Got,
    a7: Got,
    a8: Got,
    a9: Got,
    a10: Got,
    a11: Got,
    a12: Got,
    rest: usize,
) -> Twelve
    ensures { result ≡ twelve_of ((a1, (a2, (a3, a4))), ((a5, (a6, (a7, a8))), (a9, (a10, (a11, a12))))) rest }
{
    let w14 = form::keep::near(13, a12.wrong, rest);
    let w13 = form::keep::near(12, a11.wrong, w14);
    let w12 = form::keep::near(11, a10.wrong, w13);
    let w11 = form::keep::near(10, a9.wrong, w12);
    let w10 = form::keep::near(9, a8.wrong, w11);
    let w9 = form::keep::near(8, a7.wrong, w10);
    let w8 = form::keep::near(7, a6.wrong, w9);
    let w7 = form::keep::near(6, a5.wrong, w8);
    let w6 = form::keep::near(5, a4.wrong, w7);
    let w5 = form::keep::near(4, a3.wrong, w6);
    let w4 = form::keep::near(3, a2.wrong, w5);
    let w3 = form::keep::near(2, a1.wrong, w4);
    Twelve {
        wrong: w3,
        satellites: [
            a1.into(),
            a2.into(),
            a3.into(),
            a4.into(),
            a5.into(),
            a6.into(),
            a7.into(),
            a8.into(),
            a9.into(),
            a10.into(),
            a11.into(),
            a12.into(),
        ],
    }
}

fn active_in(f: Fields, rest: usize) -> Twelve
    ensures { result ≡ twelve_of (twelve_row.got (parts_of f.entry) 2) rest }
{
    let a1 = form_number::fixed::fixed(f.at(3), 2, 1, 99);
    let a2 = form_number::fixed::fixed(f.at(4), 2, 1, 99);
    let a3 = form_number::fixed::fixed(f.at(5), 2, 1, 99);
    let a4 = form_number::fixed::fixed(f.at(6), 2, 1, 99);
    let a5 = form_number::fixed::fixed(f.at(7), 2, 1, 99);
    let a6 = form_number::fixed::fixed(f.at(8), 2, 1, 99);
    let a7 = form_number::fixed::fixed(f.at(9), 2, 1, 99);
    let a8 = form_number::fixed::fixed(f.at(10), 2, 1, 99);
    let a9 = form_number::fixed::fixed(f.at(11), 2, 1, 99);
    let a10 = form_number::fixed::fixed(f.at(12), 2, 1, 99);
    let a11 = form_number::fixed::fixed(f.at(13), 2, 1, 99);
    let a12 = form_number::fixed::fixed(f.at(14), 2, 1, 99);
    twelve_from(a1, a2, a3, a4, a5, a6, a7, a8, a9, a10, a11, a12, rest)
}

// Lays the record, or refuses the first wrong field.
fn gsa_from(
    out: &mut [i64],
    t: Talker,
    selection: Got,
    fix: Got,
    active: Twelve,
    pdop: Got,
    hdop: Got,
    vdop: Got,
) -> Told
    ensures { Tells (gsa_from out.old t selection fix active pdop hdop vdop) result out.new }
{
    let w2 = form::keep::near(1, fix.wrong, active.wrong);
    let w1 = form::keep::near(0, selection.wrong, w2);
    if w1 != 0 {
        return numbers::refuse(5, w1);
    }
    let satellites = active.satellites;
    lay(
        out,
        t,
        Gsa {
            selection: selection.value,
            fix: fix.value,
            satellites,
            pdop: pdop.into(),
            hdop: hdop.into(),
            vdop: vdop.into(),
        },
    )
}

// Reads the fields of a body, and lays the numbers of the record at the start of `out`. Refused: 4 where there are not so many
// fields as the kind has, 5 at the first wrong field, 8 where `out` is shorter than the record; then `out` is left.
//
//     $GPGSA,A,3,05,12,17,,,,,,,,,,2.1,1.2,1.7*34
pub fn read(out: &mut [i64], t: Talker, f: Fields) -> Told
    ensures { Tells (gsa_told out.old t f.entry.count (parts_of f.entry)) result out.new }
{
    if f.count != 17 {
        return numbers::refuse(4, 0);
    }
    let selection = form_letter::read::letter(f.at(1), b"MA");
    let fix = form_number::fixed::exact(f.at(2), 1, 1, 3);
    let pdop = form_number::read::number(f.at(15));
    let hdop = form_number::read::number(f.at(16));
    let vdop = form_number::read::number(f.at(17));
    let w17 = form::keep::near(16, vdop.wrong, 0);
    let w16 = form::keep::near(15, hdop.wrong, w17);
    let w15 = form::keep::near(14, pdop.wrong, w16);
    let active = active_in(f, w15);
    gsa_from(out, t, selection, fix, active, pdop, hdop, vdop)
}

// The first wrong field from the satellites on; `rest` is the first after them.
fn satellites_wrong(s: [Maybe; 12], rest: usize) -> usize
    ensures { result ≡ twelve_row.fault (twelve_in s) 2 rest }
{
    match s.iter().position(|m| form::range::maybe(*m, 1, 99) != 0) {
        Some(i) => i + 3,
        None => rest,
    }
}

// The first value outside its range, by the number of its field, or 0.
fn wrong(r: Gsa) -> usize
    ensures { result ≡ gsa_wrong r }
{
    let w17 = form::keep::near(16, form::range::maybe(r.vdop, 0, 999999999), 0);
    let w16 = form::keep::near(15, form::range::maybe(r.hdop, 0, 999999999), w17);
    let w15 = form::keep::near(14, form::range::maybe(r.pdop, 0, 999999999), w16);
    let w3 = satellites_wrong(r.satellites, w15);
    let w2 = form::keep::near(1, form::range::within(r.fix, 1, 3), w3);
    form::keep::near(0, form_letter::range::letter(r.selection, b"MA"), w2)
}

// Puts the fields of satellites. Drawn in at both calls, where how many there are is known.
#[inline(always)]
fn put_satellites(out: &mut [u8], at: usize, s: &[Maybe]) -> usize
    ensures { PutsFields (held at out.old) (map satellite_text s.now) (held result out.new) }
{
    let mut a = at;
    for m in s {
        a = form_number::text::two(out, a, *m);
    }
    a
}

impl Record for Gsa {
    ghost fault = { λ r. fault_at (gsa_wrong r) };

    ghost texts = { gsa_fields };

    fn fault(self) -> Written {
        frame::fault(wrong(self))
    }

    fn put_fields(self, out: &mut [u8], at: usize) -> usize {
        let a0 = form_letter::text::letter(out, at, self.selection);
        let a1 = form_number::text::one(out, a0, self.fix);
        let a2 = put_satellites(out, a1, &self.satellites[..6]);
        let a3 = put_satellites(out, a2, &self.satellites[6..]);
        let a4 = form_number::text::number(out, a3, self.pdop);
        let a5 = form_number::text::number(out, a4, self.hdop);
        form_number::text::number(out, a5, self.vdop)
    }
}

// Writes the line of a record into `out`, and answers its length. Refused: 5 at the first value outside its
// range, 1 where the line would pass 82 bytes, 8 where `out` is shorter than the line.
//
//     $GPGSA,A,3,05,12,17,,,,,,,,,,2.1,1.2,1.7*34
pub fn write(out: &mut [u8], t: Talker, r: Gsa) -> Written
    ensures { Writes (fault_at (gsa_wrong r)) (gsa_body t r) out.old result out.new }
{
    frame::record::write_standard(out, t, b"GSA", r)
}
