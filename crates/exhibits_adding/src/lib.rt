// The command of the program exhibits that adds an entry at the end of an index.
#![tactic(auto)]

use exhibits_says::Job;
use exhibits_walks::lines::Lines;
use index::Entry;
use std::fs::{OpenFile, OpenOptions};
use std::io;
use std::io::{Seek, SeekFrom, Write};
use std::rt::Files;

// Says why an entry does not fit behind the last of the index.
fn say_unfit<R, E: Write>(job: &mut Job<R, E>, last: Entry, e: Entry, line: u64) {
    exhibits_says::begin(&mut job.err, job.index, b": ");
    if e.number <= last.number {
        return exhibits_says::unordered(
            &mut job.err,
            b"exhibit ",
            e.number,
            last.number,
            b", and exhibits have to ascend (5)\n",
        );
    }
    exhibits_says::counted(&mut job.err, b"line ", line, b" cannot be stored: it has ");
    exhibits_says::counted(&mut job.err, b"", e.length, b" bytes from byte ");
    exhibits_says::counted(
        &mut job.err,
        b"",
        e.offset,
        b" on; 7 to 82 bytes are stored, behind byte ",
    );
    exhibits_says::counted(
        &mut job.err,
        b"",
        last.offset.saturating_add(last.length),
        b" where the last exhibit ends, and within 4294967295 (5)\n",
    );
}

// The last entry of the index, and how many bytes it has: the largest number, which is the size of none, where that cannot be told.
// Nothing where it is no index or cannot be read, which is said.
fn end_of<R: Files, E: Write>(job: &mut Job<R, E>) -> Option<(Entry, u64)> {
    let mut entries = job.open_index()?;
    match entries.scan(0) {
        Ok(scanned) => {
            let size = entries.position().unwrap_or(u64::MAX);
            Some((scanned.last, size))
        }
        Err(why) => {
            job.unread_index(why);
            None
        }
    }
}

// The line with a number as the entry of an exhibit; nothing where the log does not have it or cannot be read, which is said.
fn line_of<R: Files, E: Write>(job: &mut Job<R, E>, exhibit: u64, line: u64) -> Option<Entry> {
    let mut lines = Lines::new(job.open_log()?);
    match lines.find_line(line) {
        Ok(Some(e)) => Some(Entry {
            number: exhibit,
            ..e
        }),
        Ok(None) => {
            exhibits_says::begin(&mut job.err, job.log, b" has no line ");
            exhibits_says::counted(&mut job.err, b"", line, b", its lines are ");
            exhibits_says::counted(&mut job.err, b"", lines.count, b"\n");
            None
        }
        Err(e) => {
            job.unread_log(e);
            None
        }
    }
}

// Makes the file as long as it was, where that has to be.
fn undo<R, E: Write, F: OpenFile>(job: &mut Job<R, E>, file: &mut F, size: u64) {
    if let Err(e) = file.set_len(size) {
        job.failed(b"", b" cannot be left as it was", e);
    }
}

// Writes the bytes by one write at the end of the index, which has so many; where that fails the index stays as it was.
fn append<R, E: Write, F: Write + OpenFile>(
    job: &mut Job<R, E>,
    file: &mut F,
    bytes: &[u8],
    size: u64,
) {
    match file.write(bytes) {
        Err(e) => return job.failed(b"", b" cannot be written", e),
        Ok(n) if n < bytes.len() => {
            exhibits_says::named(
                &mut job.err,
                b"",
                job.index,
                b" cannot be written: there is no room for the whole entry",
            );
            return undo(job, file, size);
        }
        Ok(_) => {}
    }
    if let Err(e) = file.sync_all() {
        job.failed(b"", b" cannot be kept", e);
        undo(job, file, size);
    }
}

// The index opened for writing at its end.
fn open_append<R: Files>(files: &R, index: &[u8]) -> io::Result<R::File> {
    let mut options = OpenOptions::new();
    options.append(true);
    options.open(files, exhibits_says::files::path(index)?)
}

// Puts the bytes of an entry behind the last of the index, where it still ends at `size`.
fn put_at_end<R, E: Write, F: Write + Seek + OpenFile>(
    job: &mut Job<R, E>,
    file: &mut F,
    bytes: &[u8],
    size: u64,
) {
    match file.seek(SeekFrom::End(0)) {
        Err(e) => job.failed(b"the index ", b" has no end to write at", e),
        Ok(end) if end == size => append(job, file, bytes, end),
        Ok(_) => exhibits_says::named(
            &mut job.err,
            b"",
            job.index,
            b" has changed meanwhile, and nothing is added",
        ),
    }
}

// Adds an entry that fits behind the last.
fn put_behind<R: Files, E: Write>(job: &mut Job<R, E>, last: Entry, e: Entry, size: u64) {
    let mut bytes = [0u8; 16];
    let n = index::put_entry(&mut bytes, 0, last, e);
    match open_append(job.files, job.index) {
        Err(why) => job.failed(b"the index ", b" cannot be opened for writing", why),
        Ok(mut file) => {
            if n <= bytes.len() {
                put_at_end(job, &mut file, &bytes[..n], size);
            }
        }
    }
}

// Adds a line of the log to the index under the number of an exhibit.
pub fn add<R: Files, E: Write>(job: &mut Job<R, E>, exhibit: u64, line: u64) {
    let Some((last, size)) = end_of(job) else {
        return;
    };
    let Some(e) = line_of(job, exhibit, line) else {
        return;
    };
    if index::fits(last, e) {
        put_behind(job, last, e, size);
    } else {
        say_unfit(job, last, e, line);
    }
}
