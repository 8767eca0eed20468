// The listing of a log: standard input of any length, and a row for each line found in it.
#![tactic(auto)]

mod worded;

ghost use Rattle.put.specs.Wrote.{held, Puts};
ghost use Rattle.sentence.specs.Lines.{read_line};
ghost use Rattle.rows.specs.Row.{row_text};

use std::io;
use std::io::{Read, Write};
use std::rt::Env;
use tally::Tally;
use turns::Came;

// What the program's words ask for: a row for each line, the numbers of its record with it, or words.
#[derive(Clone, Copy, PartialEq, Eq)]
enum Asked {
    Rows,
    Records,
    Words,
}

// The listing as it goes: the rows that wait in `out` up to `place`, how many lines were found, and where words are asked for what stood
// beside them and how many had each answer.
#[derive(Drop)]
struct Listing<'a, W, E> {
    to: &'a mut W,
    err: &'a mut E,
    asked: Asked,
    out: [u8; 65536],
    place: usize,
    rows: u64,
    beside: Tally,
    counts: [u64; 6],
}

// Why not all lines are listed.
#[derive(Clone, Copy, Debug)]
enum Trouble {
    NoInput(io::Error),
    NoOutput(io::Error),
}

// Puts the row of one line.
fn list_line(out: &mut [u8], place: usize, number: u64, line: &[u8], dumps: bool) -> usize
    ensures { Puts (held place out.old) (row_text number line.now (read_line line.now) dumps)
        (held result out.new) }
{
    let mut numbers = [0i64; 33];
    let told = sentence::read(line, &mut numbers);
    rows::put_row(out, place, number, line, told, &numbers, dumps)
}

impl<'a, W: Write, E: Write> Listing<'a, W, E> {
    fn new(to: &'a mut W, err: &'a mut E, asked: Asked) -> Self {
        Listing {
            to,
            err,
            asked,
            out: [0; 65536],
            place: 0,
            rows: 0,
            beside: tally::start(),
            counts: [0; 6],
        }
    }

    // The first row, which names the columns.
    fn heading(&mut self) -> io::Result<()> {
        match self.asked {
            Asked::Rows | Asked::Records => self.to.write_all(b"no address answer\n"),
            Asked::Words => self.to.write_all(b"offset row no address answer\n"),
        }
    }

    // Writes the rows that wait.
    fn flush(&mut self) -> io::Result<()> {
        let written = turns::flush(self.to, &self.out, self.place);
        self.place = 0;
        written
    }

    // Passes over bytes that stand before a line.
    fn pass(&mut self, s: &[u8]) {
        if self.asked == Asked::Words {
            self.beside = tally::pass(self.beside, s);
        }
    }

    // Puts the row of the next line, or its rows.
    fn take_line(&mut self, line: &[u8]) {
        self.rows = rows::next(self.rows);
        self.place = match self.asked {
            Asked::Rows => list_line(&mut self.out, self.place, self.rows, line, false),
            Asked::Records => list_line(&mut self.out, self.place, self.rows, line, true),
            Asked::Words => worded::list_line(
                &mut self.out,
                self.place,
                &mut self.counts,
                self.beside,
                self.rows,
                line,
            ),
        };
        if self.asked == Asked::Words {
            self.beside = tally::take(self.beside, line.len() as u64);
        }
    }

    // Writes the rows of each line of `s`, by way of `out`, which holds many, and answers where the bytes to keep begin. Where rows
    // cannot be written, those behind them are tried all the same. Each line begins behind the one before it, so no `for` counts them.
    fn list_lines(&mut self, s: &[u8]) -> io::Result<usize> {
        let mut written = Ok(());
        let mut at = 0;
        loop {
            let found = finder::next_line(s, at);
            self.pass(&s[at..found.start]);
            if !found.line {
                return self.flush().and(written).map(|()| found.start);
            }
            self.take_line(&s[found.start..found.end]);
            if turns::is_full(&self.out, self.place, 1024) {
                written = self.flush().and(written);
            }
            at = found.end;
        }
    }

    // Says what the log held, where words are asked for; the bytes `rest` were left unfinished at its end.
    fn finish(&mut self, rest: &[u8]) {
        if self.asked == Asked::Words {
            let beside = tally::end(tally::pass(self.beside, rest));
            worded::say_counts(self.err, self.rows, &self.counts, beside);
        }
    }

    // Lists the lines of the input. Nobody proves that it ends: the reads are counted down from a number that no run uses up.
    fn list_all<R: Read>(&mut self, from: &mut R) -> Result<(), Trouble> {
        self.heading().map_err(Trouble::NoOutput)?;
        let mut buf = [0u8; 65536];
        let mut kept = 0;
        for _ in 0..u64::MAX {
            match turns::read_more(from, &mut buf, kept).map_err(Trouble::NoInput)? {
                Came::Bytes(n) => {
                    let start = self.list_lines(&buf[..n]).map_err(Trouble::NoOutput)?;
                    kept = turns::keep(&mut buf, start, n);
                }
                Came::End => {
                    self.finish(&buf[..kept]);
                    break;
                }
                Came::Full => break,
            }
        }
        Ok(())
    }
}

// What the program's words ask for; nothing where they are not understood.
fn asked_for<V: Env>(env: &V) -> Option<Asked> {
    match turns::arg_count(env) {
        0 | 1 => Some(Asked::Rows),
        2 => {
            let mut word = [0u8; 16];
            let n = env.arg(1, &mut word).ok()?;
            match &word[..n] {
                b"records" => Some(Asked::Records),
                b"words" => Some(Asked::Words),
                _ => None,
            }
        }
        _ => None,
    }
}

fn say_usage<E: Write>(err: &mut E) {
    let _ = err.write_all(
        b"listing: it reads a log from standard input and takes no word, or one: 'records' adds the numbers of each record,\n",
    );
    let _ = err.write_all(
        b"'words' the place of each line, why it was refused, and a count: listing < log, or listing words < log\n",
    );
}

fn main(rt: HostRuntime) {
    let mut err = rt.stderr();
    let Some(asked) = asked_for(&rt) else {
        return say_usage(&mut err);
    };
    let mut to = rt.stdout();
    match Listing::new(&mut to, &mut err, asked).list_all(&mut rt.stdin()) {
        Ok(()) => {}
        Err(Trouble::NoInput(e)) => {
            turns::fail(&mut err, b"listing: standard input cannot be read", e)
        }
        Err(Trouble::NoOutput(e)) => turns::fail(
            &mut err,
            b"listing: standard output cannot be written",
            e,
        ),
    }
}
