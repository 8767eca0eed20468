// An index written from numbers, and an entry added at its end.
ghost use Rattle.std.specs.Prelude.{◌+◌, ◌≤◌, ◌≡◌, length};
ghost use Rattle.std.proofs.Math.Bool;
ghost use Rattle.put.specs.Wrote.{held, Puts};
ghost use Rattle.frame.specs.Written.{wrote};
ghost use Rattle.index.specs.Answers.{added_index, entries_of, left_added, left_index, three_at, written_index};
ghost use Rattle.index.specs.Index.{index_bytes};
ghost use Rattle.index.specs.Places.{Close, Low, Ordered, Planning, PutsOn, Putting, reached_at, Small};

use crate::{Entry, reading};
use frame::Written;

// Adds `e` at the end of the index in the first `used` bytes of `index`, and answers the length of the index then.
// Refused: 11 where these bytes are no index or `used` passes the end; 5 where `e` does not fit behind the last entry; 8
// where there is no room behind it. A refusal leaves `index`.
pub fn add(index: &mut [u8], used: usize, e: Entry) -> Written
    ensures value { result ≡ added_index index.old used e }
    ensures index_after { index.new ≡ left_added index.old used e }
{
    if index.len() < used {
        return frame::refuse(11, 0, 0);
    }
    let scanned = reading::scan(&index[0..used]);
    if !scanned.whole {
        return frame::refuse(11, 0, 0);
    }
    let last = scanned.last;
    if !crate::fits(last, e) {
        return frame::refuse(5, 0, 0);
    }
    let n = crate::size(last, e);
    if index.len() - used < n {
        return frame::refuse(8, 0, 0);
    }
    crate::put_longer(index, used, last, e);
    wrote(used + n)
}

fn wrote(length: usize) -> Written
    ensures { result ≡ wrote length }
{
    Written {
        no: 0,
        line: 0,
        field: 0,
        length,
    }
}

// The entry of the three numbers from place `i` on.
fn three(entries: &[u64], i: usize) -> Entry
    requires { i + 3 ≤ length entries.now }
    ensures { result ≡ three_at entries.now i }
{
    Entry {
        number: entries[i],
        offset: entries[i + 1],
        length: entries[i + 2],
    }
}

// A place in the numbers behind an entry with a number and an end, and how many bytes the entries before the place take.
#[derive(Clone, Copy)]
struct Reached {
    at: usize,
    number: u64,
    end: u64,
    used: usize,
}

// Whether an entry of three bytes stands at `i`, behind a number and the end of a line, which fits.
fn is_small(entries: &[u64], i: usize, number: u64, end: u64) -> bool
    requires { Low (length entries.now) i number end }
    ensures { result ≡ Bool.true → Small entries.now i number end }
{
    if entries.len() - i < 3 {
        return false;
    }
    let n = entries[i];
    let offset = entries[i + 1];
    let bytes = entries[i + 2];
    if !((number < n)
        & ((n <= number + 127)
            & ((end <= offset) & ((offset <= end + 127) & ((7 <= bytes) & (bytes <= 82))))))
    {
        return false;
    }
    (n <= 4294967295) & (offset + bytes <= 4294967295)
}

// Goes on over entries of three bytes that fit, in locals as `reading::pass` does.
fn plan(entries: &[u64], from: Reached) -> Reached
    requires { Planning entries.now from }
    ensures planning { Planning entries.now result }
    ensures at_le_at { from.at ≤ result.at }
{
    let mut i = from.at;
    let mut number = from.number;
    let mut end = from.end;
    while is_small(entries, i, number, end) {
        number = entries[i];
        end = entries[i + 1] + entries[i + 2];
        i += 3;
    }
    Reached {
        at: i,
        number,
        end,
        used: from.used + (i - from.at),
    }
}

// What writing the entries comes to in so much room. `plan` answers where to go on, so a `for` has nothing to count.
fn planned(entries: &[u64], room: usize) -> Written
    ensures { result ≡ written_index entries.now room }
{
    let mut reached = Reached {
        at: 0,
        number: 0,
        end: 0,
        used: 0,
    };
    while 3 <= entries.len() - reached.at {
        let last = Entry {
            number: reached.number,
            offset: reached.end,
            length: 0,
        };
        let e = three(entries, reached.at);
        if !crate::fits(last, e) {
            return frame::refuse(5, 0, 0);
        }
        let behind = Reached {
            at: reached.at + 3,
            number: e.number,
            end: e.offset + e.length,
            used: reached.used + crate::size(last, e),
        };
        reached = plan(entries, behind);
    }
    if reached.at != entries.len() {
        return frame::refuse(5, 0, 0);
    }
    if room < reached.used {
        return frame::refuse(8, 0, 0);
    }
    wrote(reached.used)
}

// Whether an entry stands at `i`, and both gaps behind a number and the end of a line take a byte.
fn is_close(entries: &[u64], i: usize, number: u64, end: u64) -> bool
    requires { Ordered entries.now i number end }
    ensures { result ≡ Bool.true → Close entries.now i number end }
{
    if entries.len() - i < 3 {
        return false;
    }
    (entries[i] - number < 128) & (entries[i + 1] - end < 128)
}

// Puts the bytes of the entries from a place on, as long as each takes three, in locals as `reading::pass` does.
fn put_close(out: &mut [u8], entries: &[u64], from: Reached) -> Reached
    requires { Putting entries.now out.old from }
    ensures { PutsOn entries.now out.old from out.new result }
{
    let mut i = from.at;
    let mut number = from.number;
    let mut end = from.end;
    let mut place = from.used;
    while is_close(entries, i, number, end) {
        let n = entries[i];
        let offset = entries[i + 1];
        let bytes = entries[i + 2];
        out[place] = (n - number) as u8;
        out[place + 1] = (offset - end) as u8;
        out[place + 2] = bytes as u8;
        number = n;
        end = offset + bytes;
        i += 3;
        place += 3;
    }
    Reached {
        at: i,
        number,
        end,
        used: place,
    }
}

// Puts the bytes of all entries at the start of `out`; `put_close` answers where to go on.
fn put_all(out: &mut [u8], entries: &[u64]) -> usize
    requires { Putting entries.now out.old (reached_at 0 0 0 0) }
    ensures { Puts (held 0 out.old) (index_bytes (entries_of entries.now)) (held result out.new) }
{
    let mut reached = Reached {
        at: 0,
        number: 0,
        end: 0,
        used: 0,
    };
    while 3 <= entries.len() - reached.at {
        let last = Entry {
            number: reached.number,
            offset: reached.end,
            length: 0,
        };
        let e = three(entries, reached.at);
        let place = crate::put_longer(out, reached.used, last, e);
        let behind = Reached {
            at: reached.at + 3,
            number: e.number,
            end: e.offset + e.length,
            used: place,
        };
        reached = put_close(out, entries, behind);
    }
    reached.used
}

// Writes the index of the entries that numbers say, three an entry, into `out`, and answers its length. Refused: 5 where
// the numbers are not threes or an entry is out of range or order; then 8. A refusal leaves `out`.
pub fn write(entries: &[u64], out: &mut [u8]) -> Written
    ensures value { result ≡ written_index entries.now (length out.old) }
    ensures out_after { out.new ≡ left_index entries.now out.old }
{
    let written = planned(entries, out.len());
    if written.no == 0 {
        put_all(out, entries);
    }
    written
}
