// A log of any length, gone over in turns: its lines one after another, and the line at an offset.
ghost use Rattle.std.specs.Prelude.{◌≡◌, ◌+◌, ◌≤◌, length};
ghost use Rattle.turns.specs.Turns.{part};

use finder::Found;
use index::Entry;
use std::io;
use std::io::{Read, Seek, SeekFrom};
use turns::Came;

// A log and where going over it stands: `buf` holds the log's bytes from the offset `base` on up to its place `end`. The line that was
// found last lies from `start` up to `at`, where the next one is looked for, and `count` were found so far.
#[derive(Drop)]
pub struct Lines<R> {
    log: R,
    buf: [u8; 65536],
    start: usize,
    at: usize,
    end: usize,
    base: u64,
    pub count: u64,
    ghost found: { start ≤ at },
    ghost ahead: { at ≤ end },
    ghost inside: { end ≤ 65536 },
}

impl<R: Read> Lines<R> {
    pub fn new(log: R) -> Self {
        Lines {
            log,
            buf: [0; 65536],
            start: 0,
            at: 0,
            end: 0,
            base: 0,
            count: 0,
        }
    }

    // The bytes of the line that was found last.
    pub fn line(&self) -> &[u8]
        ensures length { length result.now + self.now.start ≡ self.now.at }
        ensures bytes { result.now ≡ part self.now.start self.now.at self.now.buf }
    {
        &self.buf[self.start..self.at]
    }

    // The next line of the bytes that are in the buffer.
    fn find(&self) -> Found
        ensures order { result.start ≤ result.end }
        ensures inside { result.end ≤ self.now.end }
    {
        finder::next_line(&self.buf[..self.end], self.at)
    }

    // Goes on behind a line that was found, and answers its entry.
    fn take(&mut self, found: Found) -> Entry
        requires order { found.start ≤ found.end }
        requires inside { found.end ≤ self.old.end }
    {
        self.start = found.start;
        self.at = found.end;
        self.count = self.count.saturating_add(1);
        Entry {
            number: self.count,
            offset: self.base.saturating_add(found.start as u64),
            length: (found.end - found.start) as u64,
        }
    }

    // Keeps the bytes from `from` on, reads more behind them, and answers whether any came.
    fn read_on(&mut self, from: usize) -> io::Result<bool> {
        let kept = turns::keep(&mut self.buf, from, self.end);
        self.start = 0;
        self.at = 0;
        self.end = kept;
        self.base = self.base.saturating_add(from as u64);
        let Came::Bytes(end) = turns::read_more(&mut self.log, &mut self.buf, kept)? else {
            return Ok(false);
        };
        self.end = end;
        Ok(true)
    }

    // The next line of the log, as the entry whose exhibit number is the line's own; none at the end. Nobody proves that a log ends: the
    // reads are counted down from a number that no run uses up.
    pub fn next_line(&mut self) -> io::Result<Option<Entry>> {
        for _ in 0..u64::MAX {
            let found = self.find();
            if found.line {
                return Ok(Some(self.take(found)));
            }
            if !self.read_on(found.start)? {
                break;
            }
        }
        Ok(None)
    }

    // The line with a number, from here on.
    pub fn find_line(&mut self, number: u64) -> io::Result<Option<Entry>> {
        for _ in 0..u64::MAX {
            match self.next_line()? {
                Some(e) if e.number != number => {}
                found => return Ok(found),
            }
        }
        Ok(None)
    }
}

// Whether all of `s` is one line that the finder gives out.
fn is_line(s: &[u8]) -> bool {
    let found = finder::next_line(s, 0);
    found.line && found.start == 0 && found.end == s.len()
}

// Reads once from an offset on.
fn read_at<F: Read + Seek>(log: &mut F, buf: &mut [u8], offset: u64) -> io::Result<usize> {
    log.seek(SeekFrom::Start(offset))?;
    log.read(buf)
}

// The line that stands in the log where an entry says, read into `buf` by one read; none where these bytes are no line.
pub fn at_entry<'a, F: Read + Seek>(
    log: &mut F,
    buf: &'a mut [u8],
    e: Entry,
) -> io::Result<Option<&'a [u8]>> {
    if 4294967295 < e.offset || (buf.len() as u64) < e.length {
        return Ok(None);
    }
    let line = &mut buf[..e.length as usize];
    let n = read_at(log, line, e.offset)?;
    Ok(if n == line.len() && is_line(line) {
        Some(line)
    } else {
        None
    })
}
