// What the program exhibits says on standard error: rows that begin with its name.
#![tactic(auto)]

pub mod files;

use exhibits_walks::entries::Unread;
use std::io;
use std::io::Write;

// What a command works on: the files of the system, where it says what it cannot do, and the names of a log and of the index beside it.
#[derive(Drop)]
pub struct Job<'a, R, E> {
    pub files: &'a R,
    pub err: E,
    pub log: &'a [u8],
    pub index: &'a [u8],
}

pub fn bytes<E: Write>(err: &mut E, s: &[u8]) {
    let _ = err.write_all(s);
}

// A number between two texts. Each piece is tried by itself: one that cannot be written keeps back none of those behind it, which a
// `write!` of a whole row would.
pub fn counted<E: Write>(err: &mut E, before: &[u8], n: u64, after: &[u8]) {
    bytes(err, before);
    let _ = write!(err, "{n}");
    bytes(err, after);
}

// The beginning of a row about a file.
pub fn begin<E: Write>(err: &mut E, before: &[u8], name: &[u8]) {
    bytes(err, b"exhibits: ");
    bytes(err, before);
    bytes(err, name);
}

// A row about a file.
pub fn named<E: Write>(err: &mut E, before: &[u8], name: &[u8], after: &[u8]) {
    begin(err, before, name);
    bytes(err, after);
    bytes(err, b"\n");
}

// A row about a file, with why a call failed at its end.
pub fn failed<E: Write>(err: &mut E, before: &[u8], name: &[u8], after: &[u8], e: io::Error) {
    begin(err, before, name);
    turns::fail(err, after, e);
}

// The beginning of a row about a row of the list; 0 where there is no list.
pub fn row<E: Write>(err: &mut E, n: u64) {
    bytes(err, b"exhibits: ");
    if 0 < n {
        counted(err, b"row ", n, b" of the list: ");
    }
}

// Two numbers that do not ascend.
pub fn unordered<E: Write>(err: &mut E, what: &[u8], n: u64, before: u64, after: &[u8]) {
    if n == before {
        counted(err, what, n, b" stands there twice");
    } else {
        counted(err, what, n, b" stands behind ");
        counted(err, what, before, b"");
    }
    bytes(err, after);
}

pub fn no_output<E: Write>(err: &mut E, e: io::Error) {
    turns::fail(err, b"exhibits: standard output cannot be written", e);
}

impl<R, E: Write> Job<'_, R, E> {
    // A row about the index, with why a call failed at its end.
    pub fn failed(&mut self, before: &[u8], after: &[u8], e: io::Error) {
        failed(&mut self.err, before, self.index, after, e);
    }

    pub fn unread_log(&mut self, e: io::Error) {
        failed(&mut self.err, b"the log ", self.log, b" cannot be read", e);
    }

    pub fn unread_index(&mut self, why: Unread) {
        match why {
            Unread::NoIndex => named(&mut self.err, b"", self.index, b" is no index (11)"),
            Unread::Failed(e) => self.failed(b"the index ", b" cannot be read", e),
        }
    }

    // An exhibit whose bytes in the log are no line.
    pub fn no_line(&mut self, exhibit: u64) {
        counted(&mut self.err, b"exhibits: exhibit ", exhibit, b" of ");
        bytes(&mut self.err, self.index);
        bytes(&mut self.err, b" is no line of ");
        bytes(&mut self.err, self.log);
        bytes(&mut self.err, b": this is not the log of the index\n");
    }
}

fn usage_of_making<E: Write>(err: &mut E) {
    bytes(
        err,
        b"exhibits: it keeps an index beside a log, which opens by exhibit number:\n",
    );
    bytes(
        err,
        b"  exhibits make LOG INDEX < list      rows EXHIBIT LINE, LINE as the listing numbers it\n",
    );
    bytes(
        err,
        b"  exhibits all LOG INDEX              every line, its number in the listing as its exhibit number\n",
    );
    bytes(err, b"  exhibits add LOG INDEX EXHIBIT LINE\n");
}

fn usage_of_showing<E: Write>(err: &mut E) {
    bytes(
        err,
        b"  exhibits show LOG INDEX EXHIBIT     the line of that exhibit\n",
    );
    bytes(
        err,
        b"  exhibits read LOG INDEX EXHIBIT     the same, then its fields in words\n",
    );
    bytes(
        err,
        b"  exhibits list INDEX                 rows of exhibit, offset and length\n",
    );
    bytes(
        err,
        b"  exhibits check LOG INDEX            whether every exhibit is a line of this log\n",
    );
}

pub fn usage<E: Write>(err: &mut E) {
    usage_of_making(err);
    usage_of_showing(err);
}
