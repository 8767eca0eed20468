// The fields of a line's body, and field n of a line.
#![tactic(auto)]

ghost use Rattle.std.specs.Prelude.{◌≡◌};
ghost use Rattle.fields.specs.Places.{Placed, field_in, place_in};
ghost use Rattle.fields.specs.Part.{PartAt};
ghost use Rattle.fields.specs.FieldN.{address_refusal, field_at, refused};

use address::Address;

// How many fields the body `s` has. The place where each ends is stored in `p`, one after another,
// as far as there is room.
//
//     GPGSV,1,1,00    four fields, the address among them, that end at 5, 7, 9 and 12
pub fn places(s: &[u8], p: &mut [usize]) -> usize
    ensures { Placed s.now p.old result p.new }
{
    let mut n: usize = 0;
    for i in 0..s.len() {
        line::store(p, n, i);
        n += (s[i] == b',') as usize;
    }
    line::store(p, n, s.len());
    n + 1
}

// Field `k` of the body `s`, counted from 0, the address, by the ends that `places` found; an empty
// part where `p` holds no such ends.
pub fn field_in<'a>(s: &'a [u8], p: &[usize], k: usize) -> &'a [u8]
    ensures { PartAt s.entry (place_in p.now k s.now) (field_in p.now k s.now) result }
{
    if p.len() <= k || s.len() < p[k] {
        return &s[0..0];
    }
    let e = p[k];
    if k == 0 {
        return &s[0..e];
    }
    let b = p[k - 1];
    if e <= b {
        return &s[0..0];
    }
    &s[b + 1..e]
}

// The fields of a body by their ends, as `places` found them, and how many of them stand after the address.
#[derive(Clone, Copy)]
pub struct Fields<'a> {
    pub count: usize,
    pub body: &'a [u8],
    pub ends: &'a [usize],
}

impl<'a> Fields<'a> {
    ghost use Rattle.fields.specs.Parts.{parts_of};

    // Field `k`, counted from 0, the address; an empty part where the ends are none of the body.
    pub fn at(self, k: usize) -> &'a [u8]
        ensures { PartAt self.entry.body (place_in self.entry.ends.now k self.entry.body.now) (parts_of self.entry k) result }
    {
        field_in(self.body, self.ends, k)
    }
}

// What is refused before the fields are looked at: 1 or 2 by the line rule, then 3 for an unknown
// address; else 0.
pub fn address_refusal(line: &[u8]) -> u8
    ensures { result ≡ address_refusal line.now }
{
    let no = line::line_refusal(line);
    if no != 0 {
        return no;
    }
    let end = line.len() - 5;
    let address = address::address_of(&line[1..end]);
    match address {
        Address::Standard(..) | Address::Maker(_) => 0,
        Address::Unknown => 3,
    }
}

// Field `n` after the address: the part of the caller's line from `start` up to `end`, and `no` is 0. Refused, it is an empty part,
// from 0 up to 0, beside its number.
#[derive(Clone, Copy, PartialEq, Eq, Debug)]
pub struct Field {
    pub no: u8,
    pub start: usize,
    pub end: usize,
}

fn refused(no: u8) -> Field
    ensures { result ≡ refused no }
{
    Field {
        no,
        start: 0,
        end: 0,
    }
}

// Where field `n` after the address stands in the line. Refused: 1 to 3 as by `address_refusal`, then 4 where there is no
// field n.
//
//     $GPGSV,5,5,17,77,71,048,53*43    field 3 is 17, from 11 up to 13
pub fn field_at(line: &[u8], n: usize) -> Field
    ensures { result ≡ field_at line.now n }
{
    let refusal = address_refusal(line);
    if refusal != 0 {
        return refused(refusal);
    }
    let end = line.len() - 5;
    let mut ends = [0usize; 80];
    let count = places(&line[1..end], &mut ends);
    if n < 1 || count <= n {
        return refused(4);
    }
    Field {
        no: 0,
        start: ends[n - 1] + 2,
        end: ends[n] + 1,
    }
}
