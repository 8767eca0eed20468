// The list on standard input, of any length, row by row.
#![tactic(auto)]

ghost use Rattle.std.specs.Prelude.{◌≤◌, ◌<◌, IfSome};

use exhibits_lists::Row;
use std::io;
use std::io::Read;
use turns::Came;

// Why a list cannot be gone over: a row is longer than any row may be, or it cannot be read.
#[derive(Clone, Copy, Debug)]
pub enum Unread {
    TooLong,
    Failed(io::Error),
}

impl From<io::Error> for Unread {
    fn from(e: io::Error) -> Self {
        Unread::Failed(e)
    }
}

// A list and where reading it stands: the bytes of `buf` from `at` up to `end` come next, and `count` rows stand
// before them, one that is too long among them.
#[derive(Drop)]
pub struct Rows<R> {
    list: R,
    buf: [u8; 4096],
    at: usize,
    end: usize,
    pub count: u64,
    ghost ahead: { at ≤ end },
    ghost inside: { end ≤ 4096 },
}

impl<R: Read> Rows<R> {
    pub fn new(list: R) -> Self {
        Rows {
            list,
            buf: [0; 4096],
            at: 0,
            end: 0,
            count: 0,
        }
    }

    // Where the LF of the next row stands in the buffer.
    fn lf(&self) -> Option<usize>
        ensures behind { IfSome result (λ lf. self.now.at ≤ lf) }
        ensures inside { IfSome result (λ lf. lf < self.now.end) }
    {
        let at = self.at;
        let n = self.buf[at..self.end].iter().position(|&b| b == b'\n')?;
        Some(at + n)
    }

    // What the row up to `lf` says; reading goes on at `next`.
    fn take(&mut self, lf: usize, next: usize) -> Row
        requires behind { self.old.at ≤ lf }
        requires onward { lf ≤ next }
        requires inside { next ≤ self.old.end }
    {
        let row = exhibits_lists::read_row(&self.buf[self.at..lf]);
        self.at = next;
        self.count = self.count.saturating_add(1);
        row
    }

    // Keeps the bytes of a row that is not whole, and reads more behind them.
    fn read_on(&mut self) -> io::Result<Came> {
        let kept = turns::keep(&mut self.buf, self.at, self.end);
        self.at = 0;
        self.end = kept;
        let came = turns::read_more(&mut self.list, &mut self.buf, kept)?;
        if let Came::Bytes(end) = came {
            self.end = end;
        }
        Ok(came)
    }

    // The next row of the list, of which the last needs no LF; none at its end. Nobody proves that the input ends: the reads are counted
    // down from a number that no run uses up.
    pub fn next_row(&mut self) -> Result<Option<Row>, Unread> {
        for _ in 0..u64::MAX {
            if let Some(lf) = self.lf() {
                return Ok(Some(self.take(lf, lf + 1)));
            }
            match self.read_on()? {
                Came::Bytes(_) => {}
                Came::End if self.at == self.end => return Ok(None),
                Came::End => return Ok(Some(self.take(self.end, self.end))),
                Came::Full => {
                    self.count = self.count.saturating_add(1);
                    return Err(Unread::TooLong);
                }
            }
        }
        Ok(None)
    }
}
