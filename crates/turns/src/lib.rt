// What the programs that read in turns share: writing a part of a buffer, and keeping a part for the next turn; and what they
// tell of a call of the system that failed.
#![tactic(auto)]

ghost use Rattle.std.specs.Prelude.{◌≡◌, ◌-◌, OnOk, is_ok, length, ltb, take};
ghost use Rattle.std.specs.Io.KnownBytes.{Appends};
ghost use Rattle.turns.specs.Turns.{Keeps, Flushes, Comes, Takes};

use std::env::FillError;
use std::io;
use std::io::{ErrorKind, Read, Write};
use std::rt::Env;

// Writes what `out` holds up to `place`, and answers whether all of it could be written, or else why not; a failure where
// `place` lies beyond `out`.
pub fn flush<W: Write>(to: &mut W, out: &[u8], place: usize) -> io::Result<()>
    ensures beyond { Flushes out.now place (is_ok result) }
    ensures bytes { OnOk result (Appends (W.contents to.old) (W.contents to.new) (take place out.now)) }
{
    if out.len() < place {
        return Err(ErrorKind::InvalidInput.into());
    }
    to.write_all(&out[..place])
}

// Whether fewer than `room` bytes are left of `out` from `place` on.
pub fn is_full(out: &[u8], place: usize, room: usize) -> bool
    ensures { result ≡ ltb (length out.now - place) room }
{
    out.len().saturating_sub(place) < room
}

// Moves the bytes of `buf` from `a` up to `e` to its start, and answers how many they are.
pub fn keep(buf: &mut [u8], a: usize, e: usize) -> usize
    ensures { Keeps a e buf.old result buf.new }
{
    let e = e.min(buf.len());
    if e <= a {
        return 0;
    }
    buf.copy_within(a..e, 0);
    e - a
}

// What a read that did not fail came to: how many bytes the buffer holds now; the end of the input; or a buffer that was full.
#[derive(Clone, Copy, PartialEq, Eq, Debug)]
pub enum Came {
    Bytes(usize),
    End,
    Full,
}

// Reads once, behind the bytes of `buf` that were kept.
pub fn read_more<R: Read>(from: &mut R, buf: &mut [u8], kept: usize) -> io::Result<Came>
    ensures came { Comes kept (length buf.old) result }
    ensures kept { take kept buf.new ≡ take kept buf.old }
    ensures takes { Takes kept (R.remaining from.old) (R.remaining from.new) buf.new result }
{
    if buf.len() <= kept {
        return Ok(Came::Full);
    }
    match from.read(&mut buf[kept..])? {
        0 => Ok(Came::End),
        n => Ok(Came::Bytes(kept + n)),
    }
}

// Puts the text of an error into `text` and answers its length. The number that std puts behind the system's own text is left out.
fn put_error(text: &mut [u8], e: io::Error) -> usize {
    let mut put = io::Cursor::new(&mut *text);
    let _ = write!(put, "{e}");
    let n = put.position() as usize;
    if text.len() < n {
        return 0;
    }
    if e.raw_os_error().is_none() {
        return n;
    }
    match text[..n].iter().rposition(|b| *b == b'(') {
        Some(at) => at.saturating_sub(1),
        None => n,
    }
}

// Writes a row: what failed, as the caller names it, a colon and the error's text.
pub fn fail<W: Write>(to: &mut W, what: &[u8], e: io::Error) {
    let mut text = [0u8; 128];
    let n = put_error(&mut text, e);
    let _ = to.write_all(what);
    let _ = to.write_all(b": ");
    let _ = flush(to, &text, n);
    let _ = to.write_all(b"\n");
}

// How many words a program was started with, its own name among them.
pub fn arg_count<E: Env>(env: &E) -> usize {
    let mut byte = [0u8; 1];
    for i in 0..usize::MAX {
        if let Err(FillError::NotPresent) = env.arg(i, &mut byte) {
            return i;
        }
    }
    usize::MAX
}
