// The listing in words: each row has the place of its line in the log, and behind that of a refused line a row says why. At the end a
// row on standard error counts what the log held.
ghost use Rattle.std.specs.Prelude.{◌≡◌, length};
ghost use Rattle.put.specs.Wrote.{held, Puts};
ghost use Rattle.sentence.specs.Lines.{read_line};
ghost use Rattle.rows_words.specs.Worded.{worded_text};
ghost use Rattle.tally.specs.Tally.{plus};

use std::io::Write;
use tally::Tally;

// One more at place `i` of `counts`, if it has one.
fn count(counts: &mut [u64], i: usize)
    ensures { length counts.new ≡ length counts.old }
{
    if let Some(n) = counts.get_mut(i) {
        *n = rows::next(*n);
    }
}

// Puts the rows of line `number`, which has `beside` before it, and counts its answer.
pub fn list_line(
    out: &mut [u8],
    place: usize,
    counts: &mut [u64],
    beside: Tally,
    number: u64,
    line: &[u8],
) -> usize
    ensures puts { Puts (held place out.old)
        (worded_text beside.bytes (plus beside.rows 1) number line.now (read_line line.now))
        (held result out.new) }
    ensures counts_len_unchanged { length counts.new ≡ length counts.old }
{
    let mut numbers = [0i64; 33];
    let told = sentence::read(line, &mut numbers);
    count(counts, told.no as usize);
    let row = rows::next(beside.rows);
    rows_words::put_told(out, place, beside.bytes, row, number, line, told)
}

// Writes a piece of the row that counts. Each is tried by itself: one that cannot be written keeps back none of those behind it, which
// a `write!` of the whole row would.
fn say<E: Write>(err: &mut E, s: &[u8]) {
    let _ = err.write_all(s);
}

fn say_number<E: Write>(err: &mut E, n: u64, after: &[u8]) {
    let _ = write!(err, "{n}");
    say(err, after);
}

// Says what the log held: `14 lines found, 10 read, 1 refused with 1, ..; 23 bytes passed over, lines cut short 1, lines of over 82
// bytes 0`.
pub fn say_counts<E: Write>(err: &mut E, rows: u64, counts: &[u64; 6], beside: Tally) {
    say_number(err, rows, b" lines found, ");
    say_number(err, counts[0], b" read");
    for (no, n) in counts.iter().enumerate().skip(1) {
        say(err, b", ");
        say_number(err, *n, b" refused with ");
        say_number(err, no as u64, b"");
    }
    say(err, b"; ");
    say_number(err, beside.passed, b" bytes passed over, lines cut short ");
    say_number(err, beside.short, b", lines of over 82 bytes ");
    say_number(err, beside.long, b"\n");
}
