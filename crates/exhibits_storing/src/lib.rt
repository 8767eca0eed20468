// Entries stored behind one another in a new file: every line of a log, or those that the list on standard input names.
#![tactic(auto)]

use exhibits_lists::{Asked, Row};
use exhibits_rows::{Rows, Unread};
use exhibits_walks::lines::Lines;
use index::Entry;
use std::io;
use std::io::{Read, Write};

// Why not all is stored: an entry is refused, which was said; the log, the list or the new file cannot be read or written, and why.
#[derive(Clone, Copy, Debug)]
pub enum Trouble {
    Refused,
    NoLog(io::Error),
    NoList(io::Error),
    NoFile(io::Error),
}

// Where storing stands: in the log; in the new file, whose next bytes wait in `out` up to `place`; behind the entry `last`; and at a
// row of the list, 0 where there is none. What is refused is said.
#[derive(Drop)]
struct Store<'a, L, N, E> {
    err: &'a mut E,
    lines: Lines<&'a mut L>,
    new: &'a mut N,
    out: [u8; 65536],
    place: usize,
    last: Entry,
    row: u64,
}

impl<'a, L: Read, N: Write, E: Write> Store<'a, L, N, E> {
    fn new(err: &'a mut E, log: &'a mut L, new: &'a mut N) -> Self {
        Store {
            err,
            lines: Lines::new(log),
            new,
            out: [0; 65536],
            place: 0,
            last: index::origin(),
            row: 0,
        }
    }

    // Writes the entries that wait.
    fn flush(&mut self) -> Result<(), Trouble> {
        turns::flush(self.new, &self.out, self.place).map_err(Trouble::NoFile)?;
        self.place = 0;
        Ok(())
    }

    fn say_unfit(&mut self, e: Entry) {
        exhibits_says::row(self.err, self.row);
        exhibits_says::counted(
            self.err,
            b"exhibit ",
            e.number,
            b" cannot be stored: its line has ",
        );
        exhibits_says::counted(self.err, b"", e.length, b" bytes from byte ");
        exhibits_says::counted(
            self.err,
            b"",
            e.offset,
            b" on, and 7 to 82 bytes are stored that end within 4294967295 (5)\n",
        );
    }

    // Stores an entry behind the last.
    fn put(&mut self, e: Entry) -> Result<(), Trouble> {
        if !index::fits(self.last, e) {
            self.say_unfit(e);
            return Err(Trouble::Refused);
        }
        self.place = index::put_entry(&mut self.out, self.place, self.last, e);
        self.last = e;
        if turns::is_full(&self.out, self.place, 16) {
            self.flush()?;
        }
        Ok(())
    }

    // Stores every line under its own number, and passes over those of fewer than 7 bytes, which cannot be stored. The lines are counted
    // down from a number that no run uses up.
    fn put_all(&mut self) -> Result<(), Trouble> {
        for _ in 0..u64::MAX {
            match self.lines.next_line().map_err(Trouble::NoLog)? {
                Some(e) if e.length < 7 => {}
                Some(e) => self.put(e)?,
                None => return self.flush(),
            }
        }
        Err(Trouble::Refused)
    }

    // Stores the line with a number under the number of an exhibit.
    fn put_line(&mut self, exhibit: u64, line: u64) -> Result<(), Trouble> {
        let Some(e) = self.lines.find_line(line).map_err(Trouble::NoLog)? else {
            let lines = self.lines.count;
            exhibits_says::row(self.err, self.row);
            exhibits_says::counted(self.err, b"the log has no line ", line, b"");
            exhibits_says::counted(self.err, b", its lines are ", lines, b"\n");
            return Err(Trouble::Refused);
        };
        self.put(Entry {
            number: exhibit,
            ..e
        })
    }

    // Says why a row asks for no entry behind the exhibit and the line before it.
    fn say_asked(&mut self, asked: Asked) {
        exhibits_says::row(self.err, self.row);
        match asked {
            Asked::NoExhibit => exhibits_says::bytes(
                self.err,
                b"exhibit 0 cannot be stored, exhibits are counted from 1 (5)\n",
            ),
            Asked::NoLine => exhibits_says::bytes(
                self.err,
                b"no log has a line 0, lines are counted from 1\n",
            ),
            Asked::ExhibitBehind(n) => exhibits_says::unordered(
                self.err,
                b"exhibit ",
                n,
                self.last.number,
                b", and exhibits have to ascend (5)\n",
            ),
            Asked::LineBehind(n) => exhibits_says::unordered(
                self.err,
                b"line ",
                n,
                self.lines.count,
                b", and lines have to ascend (5)\n",
            ),
            Asked::Malformed => exhibits_says::bytes(
                self.err,
                b"it is not an exhibit and a line, two numbers up to 4294967295\n",
            ),
            Asked::Is(_, _) | Asked::Nothing => {}
        }
    }

    // Stores what a row asks for.
    fn put_row(&mut self, row: Row) -> Result<(), Trouble> {
        let asked = exhibits_lists::asks(self.last.number, self.lines.count, row);
        match asked {
            Asked::Is(exhibit, line) => self.put_line(exhibit, line),
            Asked::Nothing => Ok(()),
            _ => {
                self.say_asked(asked);
                Err(Trouble::Refused)
            }
        }
    }

    // Stores what the rows of a list ask for.
    fn put_listed<I: Read>(&mut self, rows: &mut Rows<I>) -> Result<(), Trouble> {
        for _ in 0..u64::MAX {
            let next = rows.next_row();
            self.row = rows.count;
            match next {
                Ok(Some(row)) => self.put_row(row)?,
                Ok(None) => return self.flush(),
                Err(Unread::TooLong) => {
                    exhibits_says::row(self.err, self.row);
                    exhibits_says::bytes(self.err, b"it is too long\n");
                    return Err(Trouble::Refused);
                }
                Err(Unread::Failed(e)) => return Err(Trouble::NoList(e)),
            }
        }
        Err(Trouble::Refused)
    }
}

// Stores every line of the log.
pub fn store_all<L: Read, N: Write, E: Write>(
    err: &mut E,
    log: &mut L,
    new: &mut N,
) -> Result<(), Trouble> {
    Store::new(err, log, new).put_all()
}

// Stores what the list on standard input asks for.
pub fn store_listed<I: Read, L: Read, N: Write, E: Write>(
    from: &mut I,
    err: &mut E,
    log: &mut L,
    new: &mut N,
) -> Result<(), Trouble> {
    let mut rows = Rows::new(from);
    Store::new(err, log, new).put_listed(&mut rows)
}
