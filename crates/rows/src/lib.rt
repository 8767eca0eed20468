// A row of the listing: the number of a line, its address or `-`, and the answer. Each function writes into
// a lent buffer from the place `at` on, as far as there is room, and answers the next place.
#![tactic(auto)]

ghost use Rattle.std.specs.Prelude.{◌+◌, min, ◌≡◌, drop, take};
ghost use Rattle.put.specs.Wrote.{held, Puts};
ghost use Rattle.rows.specs.Row.{address_text, answer_text, asked_text, numbers_text, shown, told_row};

use numbers::Told;

// The number after `n`; after the last of 64 bits there is none but itself.
pub fn next(n: u64) -> u64
    ensures { result ≡ min (n + 1) 18446744073709551615 }
{
    n.saturating_add(1)
}

// The address of a line, or `-` where it has none that is known.
fn put_address(out: &mut [u8], at: usize, no: u8, line: &[u8]) -> usize
    ensures { Puts (held at out.old) (address_text no line.now) (held result out.new) }
{
    if 0 < no && no < 4 {
        return put::put(out, at, b'-');
    }
    if line.len() < 6 {
        return at;
    }
    put::put_bytes(out, at, &line[1..6])
}

// `ok`, or the number of a refusal and its field.
fn put_answer(out: &mut [u8], at: usize, no: u8, field: usize) -> usize
    ensures { Puts (held at out.old) (answer_text no field) (held result out.new) }
{
    if no == 0 {
        return put::put_bytes(out, at, b"ok");
    }
    let a1 = put::put_bytes(out, at, b"refused ");
    let a2 = text::put_number(out, a1, u64::from(no));
    let a3 = put::put(out, a2, b' ');
    text::put_number(out, a3, field as u64)
}

// The first `n` numbers, or all of them where there are fewer.
fn front(numbers: &[i64], n: usize) -> &[i64]
    ensures { result.now ≡ take n numbers.now }
{
    &numbers[..n.min(numbers.len())]
}

// The numbers behind the first `n`; none where there are no more.
fn behind(numbers: &[i64], n: usize) -> &[i64]
    ensures { result.now ≡ drop n numbers.now }
{
    &numbers[n.min(numbers.len())..]
}

// The numbers of a record of a kind that the listing shows: all but the talker's.
fn shown_of(numbers: &[i64], kind: u32) -> &[i64]
    ensures { result.now ≡ shown kind numbers.now }
{
    let all = front(numbers, sentence::count_of(kind));
    if kind < 8 {
        return behind(all, 1);
    }
    all
}

// Numbers, each behind its blank.
fn put_numbers(out: &mut [u8], at: usize, numbers: &[i64]) -> usize
    ensures { Puts (held at out.old) (numbers_text numbers.now) (held result out.new) }
{
    let mut place = at;
    for &z in numbers {
        place = text::put_int(out, place, z);
    }
    place
}

// The record's numbers, where they are asked for.
fn put_asked(out: &mut [u8], at: usize, asked: bool, kind: u32, numbers: &[i64]) -> usize
    ensures { Puts (held at out.old) (asked_text asked kind numbers.now) (held result out.new) }
{
    if asked {
        return put_numbers(out, at, shown_of(numbers, kind));
    }
    at
}

// The row of line `number`, of which `told` and `numbers` were told, ended by LF.
pub fn put_row(
    out: &mut [u8],
    at: usize,
    number: u64,
    line: &[u8],
    told: Told,
    numbers: &[i64],
    asked: bool,
) -> usize
    ensures { Puts (held at out.old)
        (told_row number line.now told numbers.now asked) (held result out.new) }
{
    let a1 = text::put_number(out, at, number);
    let a2 = put::put(out, a1, b' ');
    let a3 = put_address(out, a2, told.no, line);
    let a4 = put::put(out, a3, b' ');
    let a5 = put_answer(out, a4, told.no, told.field);
    let a6 = put_asked(out, a5, asked, told.kind, numbers);
    put::put(out, a6, b'\n')
}
