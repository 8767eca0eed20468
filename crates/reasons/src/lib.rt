// Why a line was refused, in words. Each function writes into a lent buffer from the place `at` on, as far as there is room, leaves
// all other bytes, and answers the next place.
#![tactic(auto)]

ghost use Rattle.std.specs.Prelude.{◌-◌, ◌/◌, ◌%◌, [], ◌∷◌, ◌≡◌, get_or};
ghost use Rattle.digits.specs.Hex.{hex_of};
ghost use Rattle.put.specs.Wrote.{held, Puts};
ghost use Rattle.line.specs.Line.{body_of};
ghost use Rattle.address.specs.Address.{address_of};
ghost use Rattle.fields.specs.FieldN.{field_bytes};
ghost use Rattle.reasons.specs.Reasons.{address_in, address_reason, byte_text, count_reason, digits_reason, field_reason, flaw_place};
ghost use Rattle.reasons.specs.Reasons.{flaw_text, kind_no, maker_no, quoted, reason_text, said, standard_no};

use address::{Address, Kind, Pir};
use line_flaw::Flaw;

fn standard_no(k: Kind) -> u32
    ensures { result ≡ standard_no k }
{
    match k {
        Kind::Gga => 1,
        Kind::Gll => 2,
        Kind::Gsa => 3,
        Kind::Gsv => 4,
        Kind::Rmc => 5,
        Kind::Vtg => 6,
        Kind::Zda => 7,
    }
}

fn maker_no(k: Pir) -> u32
    ensures { result ≡ maker_no k }
{
    match k {
        Pir::Pr => 8,
        Pir::Tr => 9,
        Pir::Sr => 10,
        Pir::Er => 11,
        Pir::Pa => 12,
        Pir::Ta => 13,
        Pir::Sa => 14,
        Pir::Ea => 15,
    }
}

// The number of the kind of a body; 0 where its address is unknown.
fn kind_no(body: &[u8]) -> u32
    ensures { result ≡ kind_no (address_of body.now) }
{
    let address = address::address_of(body);
    match address {
        Address::Standard(_, k) => standard_no(k),
        Address::Maker(k) => maker_no(k),
        Address::Unknown => 0,
    }
}

// What stands between `$` and `*` in a line; nothing of what is shorter than one.
fn body_of(line: &[u8]) -> &[u8]
    ensures { result.now ≡ body_of line.now }
{
    let n = line.len();
    if n < 7 {
        return &line[0..0];
    }
    &line[1..n - 5]
}

// Two digits 0-9 or A-F.
fn put_pair(out: &mut [u8], at: usize, b: u8) -> usize
    ensures { Puts (held at out.old) (hex_of (b / 16) ∷ hex_of (b % 16) ∷ []) (held result out.new) }
{
    let a = put::put(out, at, digits::hex_of(b / 16));
    put::put(out, a, digits::hex_of(b))
}

// `'GPXXX'`
fn put_quoted(out: &mut [u8], at: usize, s: &[u8]) -> usize
    ensures { Puts (held at out.old) (quoted s.now) (held result out.new) }
{
    let a0 = put::put(out, at, b'\'');
    let a1 = put::put_bytes(out, a0, s);
    put::put(out, a1, b'\'')
}

// `'A'`, or `hex 0A` for a byte that is not plain text.
fn put_byte(out: &mut [u8], at: usize, b: u8) -> usize
    ensures { Puts (held at out.old) (byte_text b) (held result out.new) }
{
    if b' ' <= b && b <= b'~' {
        let a0 = put::put(out, at, b'\'');
        let a1 = put::put(out, a0, b);
        return put::put(out, a1, b'\'');
    }
    let a = put::put_bytes(out, at, b"hex ");
    put_pair(out, a, b)
}

// The byte of a line that has place `n`, counted from 1; 0 where it has none.
fn byte_at(line: &[u8], n: usize) -> u8
    ensures { result ≡ get_or line.now (n - 1) 0 }
{
    line.get(n.saturating_sub(1)).copied().unwrap_or(0)
}

fn put_place(out: &mut [u8], at: usize, line: &[u8], f: Flaw) -> usize
    ensures { Puts (held at out.old) (flaw_place line.now f) (held result out.new) }
{
    if f.no < 3 {
        let a = text::put_number(out, at, line.len() as u64);
        return put::put_bytes(out, a, b" bytes: ");
    }
    let a0 = put::put_bytes(out, at, b"byte ");
    let a1 = text::put_number(out, a0, f.at as u64);
    let a2 = put::put_bytes(out, a1, b" is ");
    let a3 = put_byte(out, a2, byte_at(line, f.at));
    put::put_bytes(out, a3, b": ")
}

// `byte 17 is hex 0A: ends with LF alone, CR LF is required`
fn put_flaw(out: &mut [u8], at: usize, line: &[u8], f: Flaw) -> usize
    ensures { Puts (held at out.old) (flaw_text line.now f) (held result out.new) }
{
    let flaws = b"\
        the line rule holds;too short, a line has at least 7 bytes;too long, a line has at most 82 bytes;a line begins with $\
        ;a line ends with CR LF;ends with LF alone, CR LF is required;* is required here, before two digits and CR LF\
        ;a digit 0-9 or A-F is required here, and small letters are none;a digit 0-9 or A-F is required here, and small letters are none\
        ;it may not stand in a body";
    let a = put_place(out, at, line, f);
    put::put_bytes(out, a, words::nth::nth_of(flaws, b';', f.no as usize))
}

// What a refusal says, and a colon.
fn put_said(out: &mut [u8], at: usize, no: u8) -> usize
    ensures { Puts (held at out.old) (said no) (held result out.new) }
{
    let a = words::put_refusal(out, at, no);
    put::put_bytes(out, a, b": ")
}

// `the two digits differ from the XOR of the body: 4D would be right`
fn put_digits(out: &mut [u8], at: usize, body: &[u8]) -> usize
    ensures { Puts (held at out.old) (digits_reason body.now) (held result out.new) }
{
    let a0 = put_said(out, at, 2);
    let a1 = put_pair(out, a0, frame::xor_of(body));
    put::put_bytes(out, a1, b" would be right")
}

// What stands before the first comma of a body.
fn address_in(body: &[u8]) -> &[u8]
    ensures { result.now ≡ address_in body.now }
{
    let n = digits::find(body, b',');
    &body[..n]
}

// `the address is unknown: 'GPXXX'`
fn put_unknown(out: &mut [u8], at: usize, body: &[u8]) -> usize
    ensures { Puts (held at out.old) (address_reason body.now) (held result out.new) }
{
    let a = put_said(out, at, 3);
    put_quoted(out, a, address_in(body))
}

// `the kind does not have so many fields: 12 here, 14 required`
fn put_count(out: &mut [u8], at: usize, body: &[u8]) -> usize
    ensures { Puts (held at out.old) (count_reason body.now) (held result out.new) }
{
    let mut ends = [0usize; 1];
    let count = fields::places(body, &mut ends);
    let a0 = put_said(out, at, 4);
    let a1 = text::put_number(out, a0, (count - 1) as u64);
    let a2 = put::put_bytes(out, a1, b" here, ");
    let a3 = words::field_words::put_count(out, a2, kind_no(body));
    put::put_bytes(out, a3, b" required")
}

// The bytes of field `n` of a line; nothing where it has none.
fn field_of(line: &[u8], n: usize) -> &[u8]
    ensures { result.now ≡ field_bytes line.now n }
{
    let f = fields::field_at(line, n);
    &line[f.start..f.end]
}

// `'555.61' in field 2; required: latitude, ddmm.mmmm up to 9000.0000, or empty`
fn put_wrong(out: &mut [u8], at: usize, line: &[u8], field: usize) -> usize
    ensures { Puts (held at out.old) (field_reason line.now field) (held result out.new) }
{
    let a0 = put_quoted(out, at, field_of(line, field));
    let a1 = put::put_bytes(out, a0, b" in field ");
    let a2 = text::put_number(out, a1, field as u64);
    let a3 = put::put_bytes(out, a2, b"; required: ");
    words::field_words::put_field(out, a3, kind_no(body_of(line)), field)
}

// Why `line` was refused with number `no` at `field`: of 1 the part of the line rule that fails and its byte, of 2 the digits
// that would be right, of 3 the address as it stands, of 4 how many fields there are and how many the kind has, of 5 the field's
// bytes, its name and its form; of every other number what it says.
//
//     $GPGGA,000008.00,,,,,0,,,,,,*40    4: `the kind does not have so many fields: 12 here, 14 required`
pub fn put_reason(out: &mut [u8], at: usize, line: &[u8], no: u8, field: usize) -> usize
    ensures { Puts (held at out.old) (reason_text line.now no field) (held result out.new) }
{
    match no {
        1 => put_flaw(out, at, line, line_flaw::flaw_of(line)),
        2 => put_digits(out, at, body_of(line)),
        3 => put_unknown(out, at, body_of(line)),
        4 => put_count(out, at, body_of(line)),
        5 => put_wrong(out, at, line, field),
        _ => words::put_refusal(out, at, no),
    }
}
