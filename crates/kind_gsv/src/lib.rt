// GSV: the number of lines, this line, the number of satellites, and up to four of them.
#![tactic(auto)]

pub mod blank;

ghost use Rattle.std.specs.Prelude.{◌≤◌, ◌≡◌, [], leb, length};
ghost use Rattle.put.specs.Wrote.{held, PutsFields};
ghost use Rattle.fields.specs.Parts.{parts_of};
ghost use Rattle.frame.specs.Written.{Writes};
ghost use Rattle.kind_gsv.specs.Blank.{is_blank};
ghost use Rattle.form.specs.Values.{is_missing};
ghost use Rattle.numbers.specs.Layout.{list_at, list_numbers};
ghost use Rattle.numbers.specs.Numbers.{laid};
ghost use Rattle.numbers.specs.Told.{gives, Tells};
ghost use Rattle.kind_gsv.specs.Row.{entry_layout, gsv_at, gsv_numbers, gsv_told};
ghost use Rattle.kind_gsv.specs.Row.{entries_of, entry_form, entry_from, first_of, gsv_from};
ghost use Rattle.kind_gsv.specs.Writing.{entry_fields, first_in, gsv_body, gsv_fault, gsv_fields, gsv_wrong, rest_blank};

use address::Talker;
use fields::Fields;
use form::Maybe;
use form::from_numbers::FromNumbers;
use form::got::Got;
use frame::Written;
use frame::record::Record;
use numbers::Told;

// A satellite of a GSV sentence; blank is all zero and missing.
#[derive(Clone, Copy)]
pub struct Entry {
    pub number: u32,
    pub elevation: Maybe,
    pub azimuth: Maybe,
    pub signal: Maybe,
}

// `count` entries are used, the places after them are blank.
#[derive(Clone, Copy)]
pub struct Gsv {
    pub lines: u32,
    pub line: u32,
    pub satellites: u32,
    pub count: u32,
    pub entries: [Entry; 4],
}

// Whether there is room in `out` for the seven numbers of a satellite of a GSV; then they stand at its start.
pub fn lay_entry(out: &mut [i64], e: Entry) -> bool
    ensures value { result ≡ leb 7 (length out.old) }
    ensures out_after { out.new ≡ laid (entry_layout.numbers e []) out.old }
{
    let v = [
        e.number as i64,
        e.elevation.there as i64,
        e.elevation.value as i64,
        e.azimuth.there as i64,
        e.azimuth.value as i64,
        e.signal.there as i64,
        e.signal.value as i64,
    ];
    numbers::lay(out, &v)
}

// The same for its four.
fn lay_four(out: &mut [i64], s: [Entry; 4]) -> bool
    ensures { out.new ≡ laid (list_numbers entry_layout s []) out.old }
{
    if out.len() < 28 {
        return false;
    }
    for i in 0..4 {
        lay_entry(&mut out[7 * i..], s[i]);
    }
    true
}

// Lays the numbers of a record, in the order of docs/LAYOUT.md.
fn lay(out: &mut [i64], t: Talker, r: Gsv) -> Told
    ensures { Tells (gives out.old 4 (gsv_numbers t r)) result out.new }
{
    if out.len() < 33 {
        return numbers::refuse(8, 0);
    }
    let talker = numbers::talker_number(t);
    let first = [
        talker as i64,
        r.lines as i64,
        r.line as i64,
        r.satellites as i64,
        r.count as i64,
    ];
    let entries = r.entries;
    numbers::lay(out, &first);
    lay_four(&mut out[5..], entries);
    numbers::bare(4)
}

// The satellite of a GSV, or of a sky, whose number is in place `i`. Drawn into its callers, which go over many of one length.
#[inline(always)]
pub fn entry_at(n: &[i64], i: u16) -> Entry
    ensures { result ≡ entry_layout.at n.now i }
{
    let at = i as usize;
    Entry {
        number: numbers::whole_at(n, at),
        elevation: Maybe::at(n, at + 1),
        azimuth: Maybe::at(n, at + 1 + 2),
        signal: Maybe::at(n, at + 1 + 2 + 2),
    }
}

// The four places of a GSV.
fn four(n: &[i64]) -> [Entry; 4]
    ensures { result ≡ list_at entry_layout n.now 5 4 }
{
    let mut s = [blank::entry(); 4];
    for i in 0..4 {
        s[i] = entry_at(n, 5 + 7 * i as u16);
    }
    s
}

// The record that numbers say; a number past the end is taken as 0.
pub fn at(n: &[i64]) -> Gsv
    ensures { result ≡ gsv_at n.now }
{
    Gsv {
        lines: numbers::whole_at(n, 1),
        line: numbers::whole_at(n, 2),
        satellites: numbers::whole_at(n, 3),
        count: numbers::whole_at(n, 4),
        entries: four(n),
    }
}

// A satellite that was read of four fields: which of them is wrong, counted from 1, or 0; blank where
// one is wrong.
#[derive(Clone, Copy)]
pub struct GotEntry {
    pub wrong: u8,
    pub entry: Entry,
}

// The first of four fields that is wrong, or 0.
fn first_of(a: u8, b: u8, c: u8, d: u8) -> u8
    ensures { result ≡ first_of a b c d }
{
    if a != 0 {
        return 1;
    }
    if b != 0 {
        return 2;
    }
    if c != 0 {
        return 3;
    }
    if d != 0 {
        return 4;
    }
    0
}

fn entry_from(number: Got, elevation: Got, azimuth: Got, signal: Got) -> GotEntry
    ensures { result ≡ entry_from number elevation azimuth signal }
{
    let wrong = first_of(number.wrong, elevation.wrong, azimuth.wrong, signal.wrong);
    if wrong != 0 {
        return GotEntry {
            wrong,
            entry: blank::entry(),
        };
    }
    GotEntry {
        wrong: 0,
        entry: Entry {
            number: number.value,
            elevation: elevation.into(),
            azimuth: azimuth.into(),
            signal: signal.into(),
        },
    }
}

// A satellite: number 01-99, elevation 00-90, azimuth 000-359, signal 00-99, of which the last three
// may be empty; blank where the line has no such entry.
//
//     77,71,048,53
fn entry_in(f: Fields, used: bool, k1: usize, k2: usize, k3: usize, k4: usize) -> GotEntry
    ensures { result ≡ entry_form used k1 k2 k3 k4 (parts_of f.entry) }
{
    if !used {
        return GotEntry {
            wrong: 0,
            entry: blank::entry(),
        };
    }
    let number = form_number::fixed::exact(f.at(k1), 2, 1, 99);
    let elevation = form_number::fixed::fixed(f.at(k2), 2, 0, 90);
    let azimuth = form_number::fixed::fixed(f.at(k3), 3, 0, 359);
    let signal = form_number::fixed::fixed(f.at(k4), 2, 0, 99);
    entry_from(number, elevation, azimuth, signal)
}

// How many entries a line of `n` fields has, or 5 where no line has so many fields.
fn entries_of(n: usize) -> u32
    ensures { result ≡ entries_of n }
{
    if n == 3 {
        return 0;
    }
    if n == 7 {
        return 1;
    }
    if n == 11 {
        return 2;
    }
    if n == 15 {
        return 3;
    }
    if n == 19 {
        return 4;
    }
    5
}

// Lays the record, or refuses the first wrong field.
fn gsv_from(
    out: &mut [i64],
    t: Talker,
    count: u32,
    lines: Got,
    line: Got,
    satellites: Got,
    e1: GotEntry,
    e2: GotEntry,
    e3: GotEntry,
    e4: GotEntry,
) -> Told
    ensures { Tells (gsv_from out.old t count (lines, (line, (satellites, (e1, (e2, (e3, e4))))))) result out.new }
{
    let w16 = form::keep::near(15, e4.wrong, 0);
    let w12 = form::keep::near(11, e3.wrong, w16);
    let w8 = form::keep::near(7, e2.wrong, w12);
    let w4 = form::keep::near(3, e1.wrong, w8);
    let w3 = form::keep::near(2, satellites.wrong, w4);
    let w2 = form::keep::near(1, line.wrong, w3);
    let w1 = form::keep::near(0, lines.wrong, w2);
    if w1 != 0 {
        return numbers::refuse(5, w1);
    }
    let a = e1.entry;
    let b = e2.entry;
    let c = e3.entry;
    let d = e4.entry;
    lay(
        out,
        t,
        Gsv {
            lines: lines.value,
            line: line.value,
            satellites: satellites.value,
            count,
            entries: [a, b, c, d],
        },
    )
}

// Reads the fields of a body, and lays the numbers of the record at the start of `out`. Refused: 4 where no line has so many fields,
// 5 at the first wrong field, 8 where `out` is shorter than the record; then `out` is left.
//
//     $GPGSV,5,5,17,77,71,048,53*43
pub fn read(out: &mut [i64], t: Talker, f: Fields) -> Told
    ensures { Tells (gsv_told out.old t f.entry.count (parts_of f.entry)) result out.new }
{
    let count = entries_of(f.count);
    if 4 < count {
        return numbers::refuse(4, 0);
    }
    let lines = form_number::fixed::exact(f.at(1), 1, 1, 9);
    let line = form_number::fixed::exact(f.at(2), 1, 1, 9);
    let satellites = form_number::fixed::exact(f.at(3), 2, 0, 99);
    let e1 = entry_in(f, 0 < count, 4, 5, 6, 7);
    let e2 = entry_in(f, 1 < count, 8, 9, 10, 11);
    let e3 = entry_in(f, 2 < count, 12, 13, 14, 15);
    let e4 = entry_in(f, 3 < count, 16, 17, 18, 19);
    gsv_from(out, t, count, lines, line, satellites, e1, e2, e3, e4)
}

// The first wrong field from an entry's on, whose first field stands after `n` others; `rest` is the first
// after it, and so it is where the entry is not used.
pub fn entry_wrong(used: bool, e: Entry, n: u8, rest: usize) -> usize
    requires { n ≤ 15 }
    ensures { result ≡ first_in used n e rest }
{
    if !used {
        return rest;
    }
    let w4 = form::keep::near(n + 3, form::range::maybe(e.signal, 0, 99), rest);
    let w3 = form::keep::near(n + 2, form::range::maybe(e.azimuth, 0, 359), w4);
    let w2 = form::keep::near(n + 1, form::range::maybe(e.elevation, 0, 90), w3);
    form::keep::near(n, form::range::within(e.number, 1, 99), w2)
}

// The first value outside its range, by the number of its field, or 0.
fn wrong(r: Gsv) -> usize
    ensures { result ≡ gsv_wrong r }
{
    let w16 = entry_wrong(3 < r.count, r.entries[3], 15, 0);
    let w12 = entry_wrong(2 < r.count, r.entries[2], 11, w16);
    let w8 = entry_wrong(1 < r.count, r.entries[1], 7, w12);
    let w4 = entry_wrong(0 < r.count, r.entries[0], 3, w8);
    let w3 = form::keep::near(2, form::range::within(r.satellites, 0, 99), w4);
    let w2 = form::keep::near(1, form::range::within(r.line, 1, 9), w3);
    form::keep::near(0, form::range::within(r.lines, 1, 9), w2)
}

fn is_missing(m: Maybe) -> bool
    ensures { result ≡ is_missing m }
{
    !m.there && m.value == 0
}

// Whether an entry is blank: number 0 and three values missing and zero.
pub fn is_blank(e: Entry) -> bool
    ensures { result ≡ is_blank e }
{
    e.number == 0 && is_missing(e.elevation) && is_missing(e.azimuth) && is_missing(e.signal)
}

// Whether each entry that is not used is blank.
fn rest_blank(r: Gsv) -> bool
    ensures { result ≡ rest_blank r }
{
    let b0 = (0 < r.count) | is_blank(r.entries[0]);
    let b1 = (1 < r.count) | is_blank(r.entries[1]);
    let b2 = (2 < r.count) | is_blank(r.entries[2]);
    let b3 = (3 < r.count) | is_blank(r.entries[3]);
    b0 & (b1 & (b2 & b3))
}

fn put_entry(out: &mut [u8], at: usize, used: bool, e: Entry) -> usize
    ensures { PutsFields (held at out.old) (entry_fields used e) (held result out.new) }
{
    if !used {
        return at;
    }
    let a0 = form_number::text::two(out, at, e.number);
    let a1 = form_number::text::two(out, a0, e.elevation);
    let a2 = form_number::text::three(out, a1, e.azimuth);
    form_number::text::two(out, a2, e.signal)
}

impl Record for Gsv {
    ghost fault = { gsv_fault };

    ghost texts = { gsv_fields };

    // Why a record is refused: 5 on line 0 for over four entries, 5 on line 1 for the first value outside its
    // range, then 5 on line 0 for an entry that is not used and not blank; nothing where it is good.
    fn fault(self) -> Written {
        if 4 < self.count {
            return frame::refuse(5, 0, 0);
        }
        let wrong = wrong(self);
        if wrong != 0 {
            return frame::refuse(5, 1, wrong);
        }
        if rest_blank(self) {
            return frame::fault(0);
        }
        frame::refuse(5, 0, 0)
    }

    fn put_fields(self, out: &mut [u8], at: usize) -> usize {
        let a0 = form_number::text::one(out, at, self.lines);
        let a1 = form_number::text::one(out, a0, self.line);
        let a2 = form_number::text::two(out, a1, self.satellites);
        let a3 = put_entry(out, a2, 0 < self.count, self.entries[0]);
        let a4 = put_entry(out, a3, 1 < self.count, self.entries[1]);
        let a5 = put_entry(out, a4, 2 < self.count, self.entries[2]);
        put_entry(out, a5, 3 < self.count, self.entries[3])
    }
}

// Writes the line of a record into `out`, and answers its length. Refused: 5 as `fault` says, 8 where `out`
// is shorter than the line.
//
//     $GPGSV,5,5,17,77,71,048,53*43
pub fn write(out: &mut [u8], t: Talker, r: Gsv) -> Written
    ensures { Writes (gsv_fault r) (gsv_body t r) out.old result out.new }
{
    frame::record::write_standard(out, t, b"GSV", r)
}
