// An index of any length, gone over in turns.
ghost use Rattle.std.specs.Prelude.{◌≤◌};

use index::{Entry, Next};
use std::io;
use std::io::{Read, Seek};
use turns::Came;

// Why an index cannot be gone over: its bytes are none, or they cannot be read.
#[derive(Clone, Copy, Debug)]
pub enum Unread {
    NoIndex,
    Failed(io::Error),
}

impl From<io::Error> for Unread {
    fn from(e: io::Error) -> Self {
        Unread::Failed(e)
    }
}

// An index and where going over it stands: the bytes of `buf` from `at` up to `end` come next, and `last` is the entry before them.
#[derive(Drop)]
pub struct Entries<R> {
    file: R,
    buf: [u8; 65536],
    at: usize,
    end: usize,
    last: Entry,
    ghost inside: { end ≤ 65536 },
}

// What a whole index ends with, and the entry that was looked for, where it has it.
#[derive(Clone, Copy)]
pub struct Scanned {
    pub last: Entry,
    pub sought: Option<Entry>,
}

impl<R: Read> Entries<R> {
    pub fn new(file: R) -> Self {
        Entries {
            file,
            buf: [0; 65536],
            at: 0,
            end: 0,
            last: index::origin(),
        }
    }

    // Keeps the bytes of an entry that is not whole, reads more behind them, and answers whether any came. At the end no such bytes may
    // be left.
    fn read_on(&mut self) -> Result<bool, Unread> {
        let kept = turns::keep(&mut self.buf, self.at, self.end);
        self.at = 0;
        self.end = kept;
        match turns::read_more(&mut self.file, &mut self.buf, kept)? {
            Came::Bytes(end) => {
                self.end = end;
                Ok(true)
            }
            Came::End if kept == 0 => Ok(false),
            Came::End | Came::Full => Err(Unread::NoIndex),
        }
    }

    // The next entry of the index; none at its end. Nobody proves that a file ends: the reads are counted down from a number that no run
    // uses up.
    pub fn next_entry(&mut self) -> Result<Option<Entry>, Unread> {
        for _ in 0..u64::MAX {
            match index::entry_at(&self.buf[..self.end], self.at, self.last) {
                Next::Is(e, at) => {
                    self.at = at;
                    self.last = e;
                    return Ok(Some(e));
                }
                Next::Short => {}
                Next::Bad => return Err(Unread::NoIndex),
            }
            if !self.read_on()? {
                return Ok(None);
            }
        }
        Err(Unread::NoIndex)
    }

    // Goes over the whole index and looks for the exhibit with a number.
    pub fn scan(&mut self, number: u64) -> Result<Scanned, Unread> {
        let mut sought = None;
        for _ in 0..u64::MAX {
            let Some(e) = self.next_entry()? else {
                break;
            };
            if e.number == number {
                sought = Some(e);
            }
        }
        Ok(Scanned {
            last: self.last,
            sought,
        })
    }
}

impl<F: Read + Seek> Entries<F> {
    // Back to the beginning of the index.
    pub fn rewind(&mut self) -> io::Result<()> {
        self.file.rewind()?;
        self.at = 0;
        self.end = 0;
        self.last = index::origin();
        Ok(())
    }

    // How many bytes of the file were read.
    pub fn position(&mut self) -> io::Result<u64> {
        self.file.stream_position()
    }
}
