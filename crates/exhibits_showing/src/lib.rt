// The commands of the program exhibits that show what an index says.
#![tactic(auto)]

use exhibits_says::Job;
use exhibits_walks::entries::{Entries, Unread};
use index::Entry;
use std::io;
use std::io::{Read, Write};
use std::rt::Files;

// What the index says of an exhibit; where it says nothing, that is said.
fn seek<R: Files, E: Write>(job: &mut Job<R, E>, exhibit: u64) -> Option<Entry> {
    let mut entries = job.open_index()?;
    match entries.scan(exhibit) {
        Ok(scanned) => {
            if scanned.sought.is_none() {
                exhibits_says::begin(&mut job.err, job.index, b" has no exhibit ");
                exhibits_says::counted(&mut job.err, b"", exhibit, b" (12)\n");
            }
            scanned.sought
        }
        Err(why) => {
            job.unread_index(why);
            None
        }
    }
}

// Says that the reader refuses an exhibit's line, and why.
fn say_refused<E: Write>(err: &mut E, exhibit: u64, line: &[u8], no: u8, field: usize) {
    exhibits_says::counted(
        err,
        b"exhibits: exhibit ",
        exhibit,
        b" cannot be read: refused ",
    );
    exhibits_says::counted(err, b"", u64::from(no), b" at field ");
    exhibits_says::counted(err, b"", field as u64, b": ");
    let mut row = [0u8; 400];
    let a = reasons::put_reason(&mut row, 0, line, no, field);
    let n = put::put(&mut row, a, b'\n');
    let _ = turns::flush(err, &row, n);
}

// Puts what a record is and its fields in words, a row each.
fn put_fields(out: &mut [u8], kind: u32, numbers: &[i64]) -> usize {
    let a1 = put::put_bytes(out, 0, b"sentence: ");
    let a2 = words::put_kind(out, a1, kind);
    let a3 = put::put(out, a2, b'\n');
    words::put_words(out, a3, kind, numbers)
}

// Writes the fields of a line in words, or says why the reader refuses it.
fn show_fields<W: Write, E: Write>(to: &mut W, err: &mut E, exhibit: u64, line: &[u8]) {
    let mut numbers = [0i64; 33];
    let told = sentence::read(line, &mut numbers);
    if told.no != 0 {
        return say_refused(err, exhibit, line, told.no, told.field);
    }
    let mut out = [0u8; 4096];
    let n = put_fields(&mut out, told.kind, &numbers);
    if let Err(e) = turns::flush(to, &out, n) {
        exhibits_says::no_output(err, e);
    }
}

// Writes the line of an exhibit, and its fields where they are asked for.
fn show_line<W: Write, E: Write>(to: &mut W, err: &mut E, exhibit: u64, line: &[u8], fields: bool) {
    if let Err(e) = to.write_all(line) {
        return exhibits_says::no_output(err, e);
    }
    if fields {
        show_fields(to, err, exhibit, line);
    }
}

// Shows the line of an exhibit, and its fields in words where they are asked for.
pub fn show<R: Files, W: Write, E: Write>(
    job: &mut Job<R, E>,
    to: &mut W,
    exhibit: u64,
    fields: bool,
) {
    let Some(e) = seek(job, exhibit) else {
        return;
    };
    let Some(mut log) = job.open_log() else {
        return;
    };
    let mut buf = [0u8; 82];
    match exhibits_walks::lines::at_entry(&mut log, &mut buf, e) {
        Ok(Some(line)) => show_line(to, &mut job.err, exhibit, line, fields),
        Ok(None) => job.no_line(exhibit),
        Err(why) => job.unread_log(why),
    }
}

// Puts the row of an entry.
fn put_row(out: &mut [u8], at: usize, e: Entry) -> usize {
    let a1 = text::put_number(out, at, e.number);
    let a2 = put::put(out, a1, b' ');
    let a3 = text::put_number(out, a2, e.offset);
    let a4 = put::put(out, a3, b' ');
    let a5 = text::put_number(out, a4, e.length);
    put::put(out, a5, b'\n')
}

// Why not all rows are written: the index cannot be gone over, or standard output cannot be written.
#[derive(Clone, Copy, Debug)]
enum Trouble {
    NoIndex(Unread),
    NoOutput(io::Error),
}

// Writes a row for each entry, by way of `out`, which holds many rows.
fn list_entries<F: Read, W: Write>(to: &mut W, entries: &mut Entries<F>) -> Result<(), Trouble> {
    let mut out = [0u8; 65536];
    let mut place = 0;
    for _ in 0..u64::MAX {
        let Some(e) = entries.next_entry().map_err(Trouble::NoIndex)? else {
            return turns::flush(to, &out, place).map_err(Trouble::NoOutput);
        };
        place = put_row(&mut out, place, e);
        if turns::is_full(&out, place, 64) {
            turns::flush(to, &out, place).map_err(Trouble::NoOutput)?;
            place = 0;
        }
    }
    Ok(())
}

// Writes a row for each entry: exhibit, offset and length. Bytes that are no index have no rows.
pub fn list<R: Files, W: Write, E: Write>(job: &mut Job<R, E>, to: &mut W) {
    let Some(mut entries) = job.whole_index() else {
        return;
    };
    match list_entries(to, &mut entries) {
        Ok(()) => {}
        Err(Trouble::NoIndex(why)) => job.unread_index(why),
        Err(Trouble::NoOutput(e)) => exhibits_says::no_output(&mut job.err, e),
    }
}
