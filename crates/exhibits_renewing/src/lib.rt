// The commands of the program exhibits that make an index: it is written to a new file beside it, which gets the name when it is whole.
#![tactic(auto)]

use exhibits_says::Job;
use exhibits_says::files::{open, path};
use exhibits_storing::Trouble;
use std::fs::{OpenFile, OpenOptions};
use std::io::{ErrorKind, Read, Write};
use std::rt::Files;
use std::{fs, io};

// A row about the new file, with why a call failed at its end.
fn new_failed<E: Write>(err: &mut E, name: &[u8], after: &[u8], e: io::Error) {
    exhibits_says::failed(err, b"the new file ", name, after, e);
}

// Says why nothing is made, where that was not said yet.
fn say_trouble<R, E: Write>(job: &mut Job<R, E>, why: Trouble, name: &[u8]) {
    match why {
        Trouble::Refused => {}
        Trouble::NoLog(e) => job.unread_log(e),
        Trouble::NoFile(e) => new_failed(&mut job.err, name, b" cannot be written", e),
        Trouble::NoList(e) => turns::fail(
            &mut job.err,
            b"exhibits: the list on standard input cannot be read",
            e,
        ),
    }
}

// Stores the entries in the new file, which is closed then, and answers whether the new index is in it, on its disk.
fn is_stored<R, I: Read, L: Read, N: Write + OpenFile + Drop, E: Write>(
    job: &mut Job<R, E>,
    from: &mut I,
    log: &mut L,
    new: N,
    name: &[u8],
    listed: bool,
) -> bool {
    let mut file = new;
    let stored = if listed {
        exhibits_storing::store_listed(from, &mut job.err, log, &mut file)
    } else {
        exhibits_storing::store_all(&mut job.err, log, &mut file)
    };
    if let Err(why) = stored {
        say_trouble(job, why, name);
        return false;
    }
    if let Err(e) = file.sync_all() {
        new_failed(&mut job.err, name, b" cannot be kept", e);
        return false;
    }
    true
}

// Whether no file has the name of the index; where one has, that is said.
fn is_free<R: Files, E: Write>(job: &mut Job<R, E>) -> bool {
    match open(job.files, job.index) {
        Err(e) if e.kind() == ErrorKind::NotFound => return true,
        Err(e) => job.failed(b"", b" cannot be made", e),
        Ok(_) => exhibits_says::named(
            &mut job.err,
            b"",
            job.index,
            b" exists, and is not overwritten",
        ),
    }
    false
}

fn unlink<R: Files>(files: &R, name: &[u8]) -> io::Result<()> {
    fs::remove_file(files, path(name)?)
}

fn remove<R: Files, E: Write>(job: &mut Job<R, E>, name: &[u8]) {
    if let Err(e) = unlink(job.files, name) {
        new_failed(&mut job.err, name, b" cannot be removed", e);
    }
}

fn rename<R: Files>(files: &R, name: &[u8], index: &[u8]) -> io::Result<()> {
    fs::rename(files, path(name)?, path(index)?)
}

// Gives the new file, which is closed, the name of the index, where the index is whole and the name still free; else removes the file.
fn finish<R: Files, E: Write>(job: &mut Job<R, E>, name: &[u8], stored: bool) {
    if !stored || !is_free(job) {
        return remove(job, name);
    }
    if let Err(e) = rename(job.files, name, job.index) {
        job.failed(b"", b" cannot get its name", e);
        remove(job, name);
    }
}

fn say_not_new<E: Write>(err: &mut E, name: &[u8], e: io::Error) {
    if e.kind() == ErrorKind::AlreadyExists {
        return exhibits_says::named(
            err,
            b"",
            name,
            b" is in the way: another run makes it, or one was broken off; then remove it",
        );
    }
    new_failed(err, name, b" cannot be made", e);
}

// A new file opened for writing; a failure where its name is taken.
fn create<R: Files>(files: &R, name: &[u8]) -> io::Result<R::File> {
    let mut options = OpenOptions::new();
    options.write(true);
    options.create_new(true);
    options.open(files, path(name)?)
}

// Makes the index in the file with the name beside it.
fn renew<R: Files, I: Read, L: Read, E: Write>(
    job: &mut Job<R, E>,
    from: &mut I,
    log: &mut L,
    name: &[u8],
    listed: bool,
) {
    match create(job.files, name) {
        Err(e) => say_not_new(&mut job.err, name, e),
        Ok(new) => {
            let stored = is_stored(job, from, log, new, name, listed);
            finish(job, name, stored);
        }
    }
}

// Makes the index of a log: of the lines that the list on standard input names, or of all lines.
pub fn make<R: Files, I: Read, E: Write>(job: &mut Job<R, E>, from: &mut I, listed: bool) {
    let Some(mut log) = job.open_log() else {
        return;
    };
    if !is_free(job) {
        return;
    }
    let mut name = [0u8; 4096];
    let a = put::put_bytes(&mut name, 0, job.index);
    let n = put::put_bytes(&mut name, a, b".new");
    if n <= name.len() {
        renew(job, from, &mut log, &name[..n], listed);
    }
}
