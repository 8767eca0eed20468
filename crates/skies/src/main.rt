// The skies of a log: standard input of any length, and for each run of satellite lines found in it the whole sky, with a
// row for each satellite, or why it is none.
#![tactic(auto)]

use exhibits_walks::lines::Lines;
use index::Entry;
use runs::Open;
use std::io::{Read, Write};
use std::{io, mem};

// The open run: how many of its bytes are held, and the number and the offset of its first line.
#[derive(Clone, Copy, Default)]
struct Run {
    length: usize,
    number: u64,
    offset: u64,
}

// The first `n` bytes of `s`; none where it does not have so many.
fn front(s: &[u8], n: usize) -> &[u8] {
    s.get(..n).unwrap_or(&[])
}

// What the lines so far have left: what the cut knows of the open run, that run and its bytes.
#[derive(Drop)]
struct Skies<'a, W> {
    to: &'a mut W,
    open: Open,
    run: Run,
    held: [u8; 738],
}

// Why not all skies are shown.
#[derive(Clone, Copy, Debug)]
enum Trouble {
    NoInput(io::Error),
    NoOutput(io::Error),
}

impl<'a, W: Write> Skies<'a, W> {
    fn new(to: &'a mut W) -> Self {
        Skies {
            to,
            open: Open { lines: 0, last: 0 },
            run: Run::default(),
            held: [0; 738],
        }
    }

    // Writes the rows of a run that has ended; they never pass 1024 bytes. Nothing is held behind it.
    fn end_run(&mut self) -> io::Result<()> {
        let run = mem::take(&mut self.run);
        let mut out = [0u8; 1024];
        let n = skies_rows::put_run(
            &mut out,
            0,
            run.number,
            run.offset,
            front(&self.held, run.length),
        );
        turns::flush(self.to, &out, n)
    }

    // Holds a line that stands in a run; the first says where the run stands.
    fn hold(&mut self, e: Entry, line: &[u8]) {
        if self.run.length == 0 {
            self.run.number = e.number;
            self.run.offset = e.offset;
        }
        self.run.length = put::put_bytes(&mut self.held, self.run.length, line);
    }

    // Writes the run that ends before a line, holds the line where it stands in a run, and writes the run that ends with it: the second
    // also where the first could not be written.
    fn take_line(&mut self, e: Entry, line: &[u8]) -> io::Result<()> {
        let step = runs::step(self.open, line);
        self.open = step.next;
        let before = if step.before { self.end_run() } else { Ok(()) };
        if step.joins {
            self.hold(e, line);
        }
        let after = if step.ends { self.end_run() } else { Ok(()) };
        after.and(before)
    }

    // Goes over the lines of the input, whose end ends the open run. The lines are counted down from a number that no run uses up.
    fn show_all<R: Read>(&mut self, lines: &mut Lines<R>) -> Result<(), Trouble> {
        for _ in 0..u64::MAX {
            let Some(e) = lines.next_line().map_err(Trouble::NoInput)? else {
                if 0 < self.open.lines {
                    self.end_run().map_err(Trouble::NoOutput)?;
                }
                break;
            };
            self.take_line(e, lines.line()).map_err(Trouble::NoOutput)?;
        }
        Ok(())
    }
}

fn main(rt: HostRuntime) {
    let mut err = rt.stderr();
    if 1 < turns::arg_count(&rt) {
        let _ = err.write_all(
            b"skies: it reads a log from standard input and takes no argument: skies < log\n",
        );
        return;
    }
    let mut to = rt.stdout();
    match Skies::new(&mut to).show_all(&mut Lines::new(rt.stdin())) {
        Ok(()) => {}
        Err(Trouble::NoInput(e)) => {
            turns::fail(&mut err, b"skies: standard input cannot be read", e)
        }
        Err(Trouble::NoOutput(e)) => turns::fail(
            &mut err,
            b"skies: standard output cannot be written",
            e,
        ),
    }
}
