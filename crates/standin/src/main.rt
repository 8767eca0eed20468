// The stand-in receiver for class: commands on standard input, replies on standard output, and a row on standard error
// for each refusal.
#![tactic(auto)]

use frame::Written;
use receiver::Settings;
use std::io;
use std::io::{Read, Write};
use std::rt::Env;
use turns::Came;

// Puts the row of a refusal, ended by LF: `line 3: refused 2 0: ` and why.
fn put_refusal(out: &mut [u8], number: u64, line: &[u8], w: Written) -> usize {
    let a1 = put::put_bytes(out, 0, b"line ");
    let a2 = text::put_number(out, a1, number);
    let a3 = put::put_bytes(out, a2, b": refused ");
    let a4 = text::put_number(out, a3, u64::from(w.no));
    let a5 = put::put(out, a4, b' ');
    let a6 = text::put_number(out, a5, w.field as u64);
    let a7 = put::put_bytes(out, a6, b": ");
    let a8 = reasons::put_reason(out, a7, line, w.no, w.field);
    put::put(out, a8, b'\n')
}

fn say_refusal<E: Write>(err: &mut E, number: u64, line: &[u8], w: Written) {
    let mut row = [0u8; 400];
    let n = put_refusal(&mut row, number, line, w);
    let _ = turns::flush(err, &row, n);
}

// The receiver as it goes: its settings, and how many lines have come on the port `arrival`.
#[derive(Drop)]
struct Standin<'a, W, E> {
    to: &'a mut W,
    err: &'a mut E,
    arrival: u32,
    settings: Settings,
    lines: u64,
}

// Why not all lines are answered.
#[derive(Clone, Copy, Debug)]
enum Trouble {
    NoInput(io::Error),
    NoOutput(io::Error),
}

impl<W: Write, E: Write> Standin<'_, W, E> {
    // Writes the reply to the next line, or the row of its refusal.
    fn answer_line(&mut self, line: &[u8]) -> io::Result<()> {
        self.lines = self.lines.saturating_add(1);
        let mut out = [0u8; 82];
        let done = receiver::step(self.settings, self.arrival, line, &mut out);
        self.settings = done.settings;
        if done.written.no != 0 {
            say_refusal(self.err, self.lines, line, done.written);
            return Ok(());
        }
        turns::flush(self.to, &out, done.written.length)
    }

    // Answers each line of `s`, and answers where the bytes to keep begin. Where a reply cannot be written, those behind it are tried
    // all the same. Each line begins behind the one before it, so no `for` counts them.
    fn answer_lines(&mut self, s: &[u8]) -> io::Result<usize> {
        let mut written = Ok(());
        let mut at = 0;
        loop {
            let found = finder::next_line(s, at);
            if !found.line {
                return written.map(|()| found.start);
            }
            written = self.answer_line(&s[found.start..found.end]).and(written);
            at = found.end;
        }
    }

    // Answers the lines of the input. Nobody proves that it ends: the reads are counted down from a number that no run uses up.
    fn answer_all<R: Read>(&mut self, from: &mut R) -> Result<(), Trouble> {
        let mut buf = [0u8; 65536];
        let mut kept = 0;
        for _ in 0..u64::MAX {
            let came = turns::read_more(from, &mut buf, kept).map_err(Trouble::NoInput)?;
            let Came::Bytes(n) = came else {
                break;
            };
            let start = self.answer_lines(&buf[..n]).map_err(Trouble::NoOutput)?;
            kept = turns::keep(&mut buf, start, n);
        }
        Ok(())
    }
}

// The port that the program's words name, 0 where there are none; nothing where they are not one port.
fn port_asked<V: Env>(env: &V) -> Option<u32> {
    match turns::arg_count(env) {
        0 | 1 => Some(0),
        2 => {
            let mut word = [0u8; 4];
            let n = env.arg(1, &mut word).ok()?;
            match &word[..n] {
                b"0" => Some(0),
                b"1" => Some(1),
                _ => None,
            }
        }
        _ => None,
    }
}

fn main(rt: HostRuntime) {
    let mut err = rt.stderr();
    let Some(arrival) = port_asked(&rt) else {
        let _ = err.write_all(b"standin: the port is 0 or 1\n");
        return;
    };
    let mut to = rt.stdout();
    let mut standin = Standin {
        to: &mut to,
        err: &mut err,
        arrival,
        settings: receiver::state::at_start(),
        lines: 0,
    };
    match standin.answer_all(&mut rt.stdin()) {
        Ok(()) => {}
        Err(Trouble::NoInput(e)) => {
            turns::fail(&mut err, b"standin: standard input cannot be read", e)
        }
        Err(Trouble::NoOutput(e)) => turns::fail(
            &mut err,
            b"standin: standard output cannot be written",
            e,
        ),
    }
}
