// The files of a command, opened by name.
use crate::Job;
use exhibits_walks::entries::Entries;
use std::io::{Seek, Write};
use std::rt::Files;
use std::{fs, io, str};

// The number by which the system names bytes that are no text.
const EILSEQ: i32 = 84;

// A file's name as std takes it, which has to be UTF-8.
pub fn path(name: &[u8]) -> io::Result<&str> {
    str::from_utf8(name).map_err(|_| io::Error::from_raw_os_error(EILSEQ))
}

// A file opened for reading.
pub fn open<R: Files>(files: &R, name: &[u8]) -> io::Result<R::File> {
    fs::open(files, path(name)?)
}

impl<R: Files, E: Write> Job<'_, R, E> {
    fn opened(&mut self, what: &[u8], name: &[u8]) -> Option<R::File> {
        match open(self.files, name) {
            Ok(file) => Some(file),
            Err(e) => {
                crate::failed(&mut self.err, what, name, b" cannot be opened", e);
                None
            }
        }
    }

    // The log opened for reading, or nothing, which is said.
    pub fn open_log(&mut self) -> Option<R::File> {
        self.opened(b"the log ", self.log)
    }

    // The index opened for reading, or nothing, which is said.
    pub fn open_index(&mut self) -> Option<Entries<R::File>> {
        Some(Entries::new(self.opened(b"the index ", self.index)?))
    }

    // The index opened at its beginning, once it is known to be one; nothing where it is none, which is said.
    pub fn whole_index(&mut self) -> Option<Entries<R::File>> {
        let mut entries = self.open_index()?;
        if let Err(why) = entries.scan(0) {
            self.unread_index(why);
            return None;
        }
        if let Err(e) = entries.rewind() {
            self.failed(b"the index ", b" cannot be read twice", e);
            return None;
        }
        Some(entries)
    }
}
