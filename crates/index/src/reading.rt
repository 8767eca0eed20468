// An index read to numbers, and an exhibit found in it by its number.
ghost use Rattle.std.specs.Prelude.{◌+◌, ◌≤◌, [], ◌∷◌, ◌≡◌, length};
ghost use Rattle.std.proofs.Math.Bool;
ghost use Rattle.put.specs.Wrote.{held, Puts};
ghost use Rattle.index_sevens.specs.Sevens.{most};
ghost use Rattle.index.specs.Answers.{best_of, finding, found_in, laid_for, listed_for, listing, numbers_of};
ghost use Rattle.index.specs.Index.{end_of, no_index, read_index};
ghost use Rattle.index.specs.Places.{laid_at, Lays, LaysOn, Low, Passes, Quick, scan_of, Starts, Walks, whole_with};

use crate::{Entry, Next};

// What reading an index answers: how many entries it has; or the number of the refusal, and then count 0.
#[derive(Clone, Copy)]
pub struct Listed {
    pub no: u8,
    pub line: usize,
    pub field: usize,
    pub count: usize,
}

fn listing(no: u8, count: usize) -> Listed
    ensures { result ≡ listing no count }
{
    Listed {
        no,
        line: 0,
        field: 0,
        count,
    }
}

// Reads the index in `s` to numbers, three an entry, at the start of `entries`. Refused: 11 for bytes that are no index;
// then 8 where `entries` is too short. A refusal leaves `entries`.
pub fn read(s: &[u8], entries: &mut [u64]) -> Listed
    ensures value { result ≡ listed_for (read_index s.now) (length entries.old) }
    ensures entries_after { entries.new ≡ laid_for (read_index s.now) entries.old }
{
    let scanned = scan(s);
    if !scanned.whole {
        return listing(11, 0);
    }
    if entries.len() / 3 < scanned.count {
        return listing(8, 0);
    }
    lay_all(s, entries);
    listing(0, scanned.count)
}

// What finding an exhibit answers: the offset and length of its line; or the number of the refusal, and then zeros.
#[derive(Clone, Copy)]
pub struct Found {
    pub no: u8,
    pub line: usize,
    pub field: usize,
    pub offset: u64,
    pub length: u64,
}

fn finding(no: u8, offset: u64, length: u64) -> Found
    ensures { result ≡ finding no offset length }
{
    Found {
        no,
        line: 0,
        field: 0,
        offset,
        length,
    }
}

// What was found, where the entry `e` comes next: it, where it has the number and none before it had.
fn found_next(best: Found, number: u64, e: Entry) -> Found
    ensures { result ≡ best_of best number e }
{
    if (best.no == 12) & (e.number == number) {
        return finding(0, e.offset, e.length);
    }
    best
}

// What going over an index once gives: whether it is one, how many entries it has and the last of them.
#[derive(Clone, Copy)]
pub struct Scanned {
    pub whole: bool,
    pub count: usize,
    pub last: Entry,
}

// The same, with what was found.
#[derive(Clone, Copy)]
struct Walked {
    scanned: Scanned,
    best: Found,
}

// An index of so many entries, and the last of them.
fn whole(count: usize, last: Entry) -> Scanned
    ensures { result ≡ whole_with count last }
{
    Scanned {
        whole: true,
        count,
        last,
    }
}

fn no_index() -> Walked
    ensures { result.scanned ≡ scan_of no_index }
{
    let scanned = Scanned {
        whole: false,
        count: 0,
        last: crate::origin(),
    };
    Walked {
        scanned,
        best: finding(11, 0, 0),
    }
}

// Whether an entry of three bytes stands at `at`, behind a number and the end of a line, which fits and is not the one wanted.
fn is_quick(s: &[u8], at: usize, number: u64, end: u64, wanted: u64) -> bool
    requires { Low (length s.now) at number end }
    ensures { result ≡ Bool.true → Quick s.now at number end wanted }
{
    if s.len() - at < 3 {
        return false;
    }
    let gap = s[at] as u64;
    let skip = s[at + 1] as u64;
    let bytes = s[at + 2] as u64;
    if !((0 < gap) & ((gap < 128) & ((skip < 128) & ((7 <= bytes) & (bytes <= 82))))) {
        return false;
    }
    if number + gap == wanted {
        return false;
    }
    (number + gap <= 4294967295) & (end + skip + bytes <= 4294967295)
}

// A place in an index: behind how many entries it is, and the last of them.
#[derive(Clone, Copy)]
struct Place {
    at: usize,
    count: usize,
    last: Entry,
}

// Goes on over entries of three bytes, up to the one wanted. The place and what was read stand in locals: through a struct this took
// four times as long (docs/DECISIONS.md), and a `for` does not say how far one goes on.
fn pass(s: &[u8], from: Place, wanted: u64) -> Place
    requires { Starts (length s.now) from }
    ensures { Passes s.now wanted from result }
{
    let last = from.last;
    let mut at = from.at;
    let mut count = from.count;
    let mut number = last.number;
    let mut end = last.offset + last.length;
    let mut bytes = last.length;
    while is_quick(s, at, number, end, wanted) {
        bytes = s[at + 2] as u64;
        number += s[at] as u64;
        end += s[at + 1] as u64 + bytes;
        at += 3;
        count += 1;
    }
    let last = Entry {
        number,
        offset: end - bytes,
        length: bytes,
    };
    Place { at, count, last }
}

// Goes over the index in `s`, and finds the exhibit with a number. Each entry says where the next one stands, so a `for` has nothing
// to count.
fn walk(s: &[u8], number: u64) -> Walked
    ensures { Walks s.now number result.scanned result.best }
{
    let mut best = finding(12, 0, 0);
    let mut place = Place {
        at: 0,
        count: 0,
        last: crate::origin(),
    };
    while place.at < s.len() {
        let next = crate::entry_at(s, place.at, place.last);
        match next {
            Next::Is(e, a) => {
                best = found_next(best, number, e);
                let behind = Place {
                    at: a,
                    count: place.count + 1,
                    last: e,
                };
                place = pass(s, behind, number);
            }
            Next::Short => return no_index(),
            Next::Bad => return no_index(),
        }
    }
    Walked {
        scanned: whole(place.count, place.last),
        best,
    }
}

// Goes over the index in `s`.
pub fn scan(s: &[u8]) -> Scanned
    ensures { result ≡ scan_of (read_index s.now) }
{
    let walked = walk(s, 0);
    walked.scanned
}

// Finds the exhibit with a number in the index in `s`. Refused: 11 for bytes that are no index, whatever the number is;
// then 12 where no entry has that number.
pub fn find(s: &[u8], number: u64) -> Found
    ensures { result ≡ found_in number (read_index s.now) }
{
    let walked = walk(s, number);
    let scanned = walked.scanned;
    if !scanned.whole {
        return finding(11, 0, 0);
    }
    walked.best
}

// A place in an index behind an entry with a number and an end, and the place behind the numbers that are laid.
#[derive(Clone, Copy)]
struct Laid {
    at: usize,
    number: u64,
    end: u64,
    place: usize,
}

// Lays the numbers of the entries of three bytes from a place on, in locals as `pass` does.
fn lay(s: &[u8], out: &mut [u64], from: Laid) -> Laid
    requires { Lays s.now out.old from }
    ensures { LaysOn s.now out.old from out.new result }
{
    let mut at = from.at;
    let mut number = from.number;
    let mut end = from.end;
    let mut place = from.place;
    while crate::is_near(s, at) {
        let skip = s[at + 1] as u64;
        let bytes = s[at + 2] as u64;
        number += s[at] as u64;
        out[place] = number;
        out[place + 1] = end + skip;
        out[place + 2] = bytes;
        end += skip + bytes;
        at += 3;
        place += 3;
    }
    Laid {
        at,
        number,
        end,
        place,
    }
}

// Lays the three numbers of an entry, whose bytes end at `at`.
fn lay_one(out: &mut [u64], place: usize, e: Entry, at: usize) -> Laid
    requires { (place + 3 ≤ length out.old) × (end_of e ≤ most) }
    ensures value { result ≡ laid_at at e.number (end_of e) (place + 3) }
    ensures puts { Puts (held place out.old) (numbers_of (e ∷ [])) (held (place + 3) out.new) }
{
    out[place] = e.number;
    out[place + 1] = e.offset;
    out[place + 2] = e.length;
    Laid {
        at,
        number: e.number,
        end: e.offset + e.length,
        place: place + 3,
    }
}

// Lays the numbers of all entries of an index at the start of `out`; each entry says where the next one stands.
fn lay_all(s: &[u8], out: &mut [u64])
    requires { Lays s.now out.old (laid_at 0 0 0 0) }
    ensures { out.new ≡ laid_for (read_index s.now) out.old }
{
    let mut laid = Laid {
        at: 0,
        number: 0,
        end: 0,
        place: 0,
    };
    while laid.at < s.len() {
        let last = Entry {
            number: laid.number,
            offset: laid.end,
            length: 0,
        };
        let next = crate::entry_at(s, laid.at, last);
        match next {
            Next::Is(e, a) => {
                let behind = lay_one(out, laid.place, e, a);
                laid = lay(s, out, behind);
            }
            Next::Short => return,
            Next::Bad => return,
        }
    }
}
