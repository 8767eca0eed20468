// The index beside a log: which line each exhibit is, by the exhibit's number.
#![tactic(auto)]

pub mod reading;
pub mod writing;

ghost use Rattle.std.specs.Prelude.{◌-◌, ◌<◌, ◌≤◌, [], ◌∷◌, ◌≡◌, drop, length};
ghost use Rattle.std.proofs.Math.Bool;
ghost use Rattle.digits.specs.Pick.{pick};
ghost use Rattle.put.specs.Wrote.{held, Puts};
ghost use Rattle.index_sevens.specs.Sevens.{most};
ghost use Rattle.index.specs.Index.{entry_behind, entry_bytes, entry_of, fits, length_of, origin, skip_of};
ghost use Rattle.index.specs.Places.{Near, next_at};
ghost use Rattle.index.specs.declared.Next.TheVariants as N;

use index_sevens::Taken;

// An exhibit's number, the byte offset of its line in the log, and the line's length.
#[derive(Clone, Copy)]
pub struct Entry {
    pub number: u64,
    pub offset: u64,
    pub length: u64,
}

// What stands before the first entry.
pub fn origin() -> Entry
    ensures { result ≡ origin }
{
    Entry {
        number: 0,
        offset: 0,
        length: 0,
    }
}

// Whether `e` is in range, and in order behind the entry `last`.
pub fn fits(last: Entry, e: Entry) -> bool
    ensures { result ≡ fits last e }
{
    if (4294967295 < last.offset) | ((4294967295 < last.length) | (4294967295 < e.offset)) {
        return false;
    }
    (last.number < e.number)
        & ((e.number <= 4294967295)
            & ((last.offset + last.length <= e.offset)
                & ((7 <= e.length) & ((e.length <= 82) & (e.length <= 4294967295 - e.offset)))))
}

// `a` less `b`, or 0 where `b` is more.
fn less(a: u64, b: u64) -> u64
    ensures { result ≡ a - b }
{
    a.saturating_sub(b)
}

// Puts three numbers of one byte each.
fn put_three(out: &mut [u8], at: usize, gap: u64, skip: u64, length: u64) -> usize
    requires { (gap < 128) × ((skip < 128) × (length < 128)) }
    ensures { Puts (held at out.old) (gap ∷ (skip ∷ (length ∷ []))) (held result out.new) }
{
    if 3 <= out.len() && at <= out.len() - 3 {
        out[at] = gap as u8;
        out[at + 1] = skip as u8;
        out[at + 2] = length as u8;
        return at + 3;
    }
    let a0 = put::put(out, at, gap as u8);
    let a1 = put::put(out, a0, skip as u8);
    put::put(out, a1, length as u8)
}

// Puts the bytes of `e` behind the entry `last`, as each put does, number by number.
fn put_longer(out: &mut [u8], at: usize, last: Entry, e: Entry) -> usize
    ensures { Puts (held at out.old) (entry_bytes last e) (held result out.new) }
{
    let a0 = index_sevens::put(out, at, less(e.number, last.number));
    let a1 = index_sevens::put(out, a0, less(less(e.offset, last.offset), last.length));
    index_sevens::put(out, a1, e.length)
}

// The same; three numbers of a byte each are put at once.
pub fn put_entry(out: &mut [u8], at: usize, last: Entry, e: Entry) -> usize
    ensures { Puts (held at out.old) (entry_bytes last e) (held result out.new) }
{
    let gap = less(e.number, last.number);
    let skip = less(less(e.offset, last.offset), last.length);
    if (gap < 128) & ((skip < 128) & (e.length < 128)) {
        return put_three(out, at, gap, skip, e.length);
    }
    put_longer(out, at, last, e)
}

// How many bytes `e` takes behind the entry `last`.
fn size(last: Entry, e: Entry) -> usize
    ensures { result ≡ length (entry_bytes last e) }
{
    let gap = index_sevens::size(less(e.number, last.number));
    let skip = index_sevens::size(less(less(e.offset, last.offset), last.length));
    gap + (skip + index_sevens::size(e.length))
}

// What stands at a place behind an entry: the next entry, and the place behind it; an entry whose bytes end too soon,
// so that more may come; or bytes that no entry begins with.
#[derive(Clone, Copy)]
pub enum Next {
    Is(Entry, usize),
    Short,
    Bad,
}

// The entry that three numbers make behind `last`, where it fits, and the place `at` behind it.
fn made(last: Entry, gap: u64, skip: u64, length: u64, at: usize) -> Next
    requires { (gap ≤ most) × ((skip ≤ most) × (length ≤ most)) }
    ensures { result ≡ pick (fits last (entry_behind last gap skip length)) (N.Is (entry_behind last gap skip length) at) N.Bad }
{
    if (4294967295 < last.number) | ((4294967295 < last.offset) | (4294967295 < last.length)) {
        return Next::Bad;
    }
    let number = last.number + gap;
    let offset = last.offset + last.length + skip;
    if (0 < gap)
        & ((number <= 4294967295)
            & ((7 <= length) & ((length <= 82) & (offset + length <= 4294967295))))
    {
        return Next::Is(
            Entry {
                number,
                offset,
                length,
            },
            at,
        );
    }
    Next::Bad
}

// The same with the length that stands at `at`.
fn with_length(s: &[u8], at: usize, last: Entry, gap: u64, skip: u64) -> Next
    requires { (gap ≤ most) × (skip ≤ most) }
    ensures { result ≡ next_at (length s.now) (length_of last gap skip (drop at s.now)) }
{
    let length = index_sevens::take(s, at);
    match length {
        Taken::Value(length, a) => made(last, gap, skip, length, a),
        Taken::Short => Next::Short,
        Taken::Bad => Next::Bad,
    }
}

// The same with the gap from the end of the line before that stands at `at`.
fn with_skip(s: &[u8], at: usize, last: Entry, gap: u64) -> Next
    requires { gap ≤ most }
    ensures { result ≡ next_at (length s.now) (skip_of last gap (drop at s.now)) }
{
    let skip = index_sevens::take(s, at);
    match skip {
        Taken::Value(skip, a) => with_length(s, a, last, gap, skip),
        Taken::Short => Next::Short,
        Taken::Bad => Next::Bad,
    }
}

// The entry that stands at `at`, behind the entry `last`, number by number.
fn longer(s: &[u8], at: usize, last: Entry) -> Next
    ensures { result ≡ next_at (length s.now) (entry_of last (drop at s.now)) }
{
    let gap = index_sevens::take(s, at);
    match gap {
        Taken::Value(gap, a) => with_skip(s, a, last, gap),
        Taken::Short => Next::Short,
        Taken::Bad => Next::Bad,
    }
}

// Whether three bytes stand at `at` that are a number each.
fn is_near(s: &[u8], at: usize) -> bool
    ensures { result ≡ Bool.true → Near s.now at }
{
    if s.len() < 3 || s.len() - 3 < at {
        return false;
    }
    (s[at] < 128) & ((s[at + 1] < 128) & (s[at + 2] < 128))
}

// The entry that stands at `at`, behind the entry `last`. One of three bytes is made at once.
pub fn entry_at(s: &[u8], at: usize, last: Entry) -> Next
    ensures { result ≡ next_at (length s.now) (entry_of last (drop at s.now)) }
{
    if is_near(s, at) {
        return made(
            last,
            s[at] as u64,
            s[at + 1] as u64,
            s[at + 2] as u64,
            at + 3,
        );
    }
    longer(s, at, last)
}
