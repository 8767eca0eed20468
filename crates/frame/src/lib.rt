// The line around a body: `$`, the body, `*`, the two digits of its XOR, CR, LF; and the refusals of a writer.
#![tactic(auto)]

pub mod record;

ghost use Rattle.std.specs.Prelude.{◌%◌, ◌/◌, [], ◌++◌, ◌∷◌, ◌≡◌, take};
ghost use Rattle.digits.specs.Hex.{hex_of};
ghost use Rattle.put.specs.Wrote.{held, Puts};
ghost use Rattle.line.specs.Line.{as_line, xor_of};
ghost use Rattle.frame.specs.Body.{talker_text};
ghost use Rattle.frame.specs.Written.{fault_at, refused, Writes, wrote};

use address::Talker;

// What a writer answers: the length of the line that it wrote; or the number of its refusal with line and
// field, and then length 0.
#[derive(Clone, Copy, PartialEq, Eq, Debug)]
pub struct Written {
    pub no: u8,
    pub line: usize,
    pub field: usize,
    pub length: usize,
}

pub fn refuse(no: u8, line: usize, field: usize) -> Written
    ensures { result ≡ refused no line field }
{
    Written {
        no,
        line,
        field,
        length: 0,
    }
}

fn done(length: usize) -> Written
    ensures { result ≡ wrote length }
{
    Written {
        no: 0,
        line: 0,
        field: 0,
        length,
    }
}

// The fault of a record whose first wrong field is `wrong`: 5 on line 1; none where it is 0.
pub fn fault(wrong: usize) -> Written
    ensures { result ≡ fault_at wrong }
{
    if wrong == 0 {
        return done(0);
    }
    refuse(5, 1, wrong)
}

// Puts the two bytes of a talker at the start of `out`, and the bytes of a type behind them.
pub fn put_address(out: &mut [u8], t: Talker, kind: &[u8]) -> usize
    ensures { Puts (held 0 out.old) (talker_text t ++ kind.now) (held result out.new) }
{
    let a = put_talker(out, t);
    put::put_bytes(out, a, kind)
}

fn put_talker(out: &mut [u8], t: Talker) -> usize
    ensures { Puts (held 0 out.old) (talker_text t) (held result out.new) }
{
    match t {
        Talker::Gp => put::put_bytes(out, 0, b"GP"),
        Talker::Gl => put::put_bytes(out, 0, b"GL"),
        Talker::Ga => put::put_bytes(out, 0, b"GA"),
        Talker::Gq => put::put_bytes(out, 0, b"GQ"),
        Talker::Gn => put::put_bytes(out, 0, b"GN"),
    }
}

// The XOR of the bytes of `s`.
pub fn xor_of(s: &[u8]) -> u8
    ensures { result ≡ xor_of s.now }
{
    let mut xor = 0;
    for i in 0..s.len() {
        xor ^= s[i];
    }
    xor
}

// Puts `*`, the two digits of `x`, CR and LF.
fn put_end(out: &mut [u8], at: usize, x: u8) -> usize
    ensures { Puts (held at out.old) (42 ∷ hex_of (x / 16) ∷ hex_of (x % 16) ∷ 13 ∷ 10 ∷ []) (held result out.new) }
{
    let a0 = put::put(out, at, b'*');
    let a1 = put::put(out, a0, digits::hex_of(x / 16));
    let a2 = put::put(out, a1, digits::hex_of(x));
    put::put_bytes(out, a2, b"\r\n")
}

// Puts the line of a body at the start of `out`.
#[inline(always)]
fn seal(out: &mut [u8], body: &[u8]) -> usize
    ensures { Puts (held 0 out.old) (as_line body.now) (held result out.new) }
{
    let x = xor_of(body);
    let a0 = put::put(out, 0, b'$');
    let a1 = put::put_bytes(out, a0, body);
    put_end(out, a1, x)
}

// The first `n` bytes of `s`, or all of them where there are fewer.
fn front(s: &[u8], n: usize) -> &[u8]
    ensures { result.now ≡ take n s.now }
{
    &s[..n.min(s.len())]
}

// Writes the line of a body into `out` and answers its length; or hands back the record's fault, or refuses
// with 1 a line of over 82 bytes, then with 8 an output that is shorter than the line. Drawn into each writer, as are `seal` and `finish`:
// there the body's bytes are known to lie apart from `out`.
#[inline(always)]
fn write(out: &mut [u8], body: &[u8], fault: Written) -> Written
    ensures { Writes fault body.now out.old result out.new }
{
    if fault.no != 0 {
        return fault;
    }
    if 76 < body.len() {
        return refuse(1, 1, 0);
    }
    let length = body.len() + 6;
    if out.len() < length {
        return refuse(8, 1, 0);
    }
    seal(out, body);
    done(length)
}

// The same for a body that is the first `n` bytes of `scratch`.
#[inline(always)]
pub fn finish(out: &mut [u8], scratch: &[u8], n: usize, fault: Written) -> Written
    ensures { Writes fault (take n scratch.now) out.old result out.new }
{
    write(out, front(scratch, n), fault)
}
