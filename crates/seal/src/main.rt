// The lines of bodies: each row on standard input is a body and comes out as its line; for a row that cannot be the body of a
// line a row on standard error tells why.
#![tactic(auto)]

ghost use Rattle.std.specs.Prelude.{◌≤◌, length};

use bodies::Why;
use std::io::{Read, Write};
use std::{io, mem};
use turns::Came;

// Puts which byte of a row may not stand in a body: its place counted from 1, its digits, and the byte itself where it can be seen.
fn put_other(out: &mut [u8], at: usize, row: &[u8], place: usize) -> usize {
    let Some(&b) = row.get(place) else {
        return at;
    };
    let a1 = put::put_bytes(out, at, b"byte ");
    let a2 = text::put_number(out, a1, place as u64 + 1);
    let a3 = put::put_bytes(out, a2, b" is hex ");
    let a4 = put::put(out, a3, digits::hex_of(b / 16));
    let a5 = put::put(out, a4, digits::hex_of(b));
    let a6 = put_seen(out, a5, b);
    put::put_bytes(out, a6, b", which may not stand in a body")
}

fn put_seen(out: &mut [u8], at: usize, b: u8) -> usize {
    if !b.is_ascii_graphic() {
        return at;
    }
    let a1 = put::put_bytes(out, at, b" (");
    let a2 = put::put(out, a1, b);
    put::put(out, a2, b')')
}

// Puts why a row is no body.
fn put_reason(out: &mut [u8], at: usize, row: &[u8], why: Option<Why>) -> usize {
    match why {
        Some(Why::Empty) => put::put_bytes(out, at, b"a body has at least one byte"),
        Some(Why::Long) => put::put_bytes(out, at, b"a body has at most 76 bytes"),
        Some(Why::Other(place)) => put_other(out, at, row, place),
        None => put::put_bytes(out, at, b"there is no room for its line"),
    }
}

// Says why the row of this number has no line.
fn say_reason<E: Write>(err: &mut E, number: u64, row: &[u8], why: Option<Why>) {
    let mut said = [0u8; 160];
    let a1 = put::put_bytes(&mut said, 0, b"seal: row ");
    let a2 = text::put_number(&mut said, a1, number);
    let a3 = put::put_bytes(&mut said, a2, b": ");
    let a4 = put_reason(&mut said, a3, row, why);
    let n = put::put_bytes(&mut said, a4, b"\n");
    let _ = turns::flush(err, &said, n);
}

// Where the rows stand: how many have come, and whether the last of them is too long and still goes on.
#[derive(Drop)]
struct Seal<'a, W, E> {
    to: &'a mut W,
    err: &'a mut E,
    rows: u64,
    long: bool,
}

// Why not all rows are gone over.
#[derive(Clone, Copy, Debug)]
enum Trouble {
    NoInput(io::Error),
    NoOutput(io::Error),
}

// The row without the CR at its end.
fn without_cr(row: &[u8]) -> &[u8] {
    match row {
        [row @ .., b'\r'] => row,
        _ => row,
    }
}

impl<W: Write, E: Write> Seal<'_, W, E> {
    // Writes the line of the next row, or says why it has none.
    fn seal_row(&mut self, row: &[u8]) -> io::Result<()> {
        let mut line = [0u8; 82];
        let done = bodies::write(row, &mut line);
        self.rows = self.rows.saturating_add(1);
        if done.no == 0 {
            return turns::flush(self.to, &line, done.length);
        }
        say_reason(self.err, self.rows, row, bodies::reason(row));
        Ok(())
    }

    // The next row, which an LF ends; or the end of one that was too long.
    fn end_row(&mut self, row: &[u8]) -> io::Result<()> {
        if mem::take(&mut self.long) {
            return Ok(());
        }
        self.seal_row(without_cr(row))
    }

    // Goes over the rows of `s` that are whole, and answers where the bytes of one that is not begin. Where a line cannot be written,
    // those behind it are tried all the same.
    fn end_rows(&mut self, s: &[u8]) -> io::Result<usize> {
        let Some(last) = s.iter().rposition(|&b| b == b'\n') else {
            return Ok(0);
        };
        let mut written = Ok(());
        for row in s[..last].split(|&b| b == b'\n') {
            written = self.end_row(row).and(written);
        }
        written.map(|()| last + 1)
    }

    // Goes over the rows in the first `n` bytes of `buf`, and keeps the bytes of one that is not whole; 78 of them are too many for a
    // body with CR, and none of these is kept.
    fn go_over(&mut self, buf: &mut [u8], n: usize) -> io::Result<usize>
        requires { n ≤ length buf.old }
    {
        let from = self.end_rows(&buf[..n])?;
        let kept = turns::keep(buf, from, n);
        if !self.long && kept < 78 {
            return Ok(kept);
        }
        if !self.long {
            self.long = true;
            self.rows = self.rows.saturating_add(1);
            say_reason(self.err, self.rows, b"", Some(Why::Long));
        }
        Ok(0)
    }

    // Goes over the rows of the input, whose end ends the last one. Nobody proves that it ends: the reads are counted down from a number
    // that no run uses up.
    fn seal_all<R: Read>(&mut self, from: &mut R) -> Result<(), Trouble> {
        let mut buf = [0u8; 65536];
        let mut kept = 0;
        for _ in 0..u64::MAX {
            kept = match turns::read_more(from, &mut buf, kept).map_err(Trouble::NoInput)? {
                Came::Bytes(n) => self.go_over(&mut buf, n).map_err(Trouble::NoOutput)?,
                Came::End if kept == 0 => break,
                Came::End => return self.seal_row(&buf[..kept]).map_err(Trouble::NoOutput),
                Came::Full => break,
            };
        }
        Ok(())
    }
}

fn main(rt: HostRuntime) {
    let mut err = rt.stderr();
    if 1 < turns::arg_count(&rt) {
        let _ = err.write_all(
            b"seal: it takes no words: bodies on standard input, a row each, and their lines on standard output\n",
        );
        return;
    }
    let mut to = rt.stdout();
    let mut seal = Seal {
        to: &mut to,
        err: &mut err,
        rows: 0,
        long: false,
    };
    match seal.seal_all(&mut rt.stdin()) {
        Ok(()) => {}
        Err(Trouble::NoInput(e)) => {
            turns::fail(&mut err, b"seal: standard input cannot be read", e)
        }
        Err(Trouble::NoOutput(e)) => {
            turns::fail(&mut err, b"seal: standard output cannot be written", e)
        }
    }
}
