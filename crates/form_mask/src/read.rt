// Masks of hex digits, read.
ghost use Rattle.std.specs.Prelude.{◌-◌, ◌^◌, ◌≤◌, ◌≡◌, length};
ghost use Rattle.std.proofs.Math.Bool;
ghost use Rattle.digits.specs.Hex.{hex_digit, hex_value};
ghost use Rattle.form_mask.specs.Masks.{hex_digits_of, hex_from, is_port_mask, port_mask_form, port_mask_of, satellites_form, satellites_of};
ghost use Rattle.form_mask.specs.Masks.{whole_form};

use form::got::Got;

// The value of a capital hex digit.
fn hex_value(b: u8) -> u32
    requires { hex_digit b ≡ Bool.true }
    ensures { result ≡ hex_value b }
{
    if b <= b'9' {
        u32::from(b - b'0')
    } else {
        u32::from(b - b'A') + 10
    }
}

// The value of up to eight capital hex digits.
fn scan_hex(s: &[u8]) -> Option<u32>
    requires { length s.now ≤ 8 }
    ensures { result ≡ hex_from 0 s.now }
{
    let mut acc: u32 = 0;
    for &b in s {
        if !digits::is_hex(b) {
            return None;
        }
        acc = acc * 16 + hex_value(b);
    }
    Some(acc)
}

// The value of `lo` to `hi` capital hex digits, and of no more than eight.
pub fn hex_digits(s: &[u8], lo: usize, hi: usize) -> Option<u32>
    ensures { result ≡ hex_digits_of lo hi s.now }
{
    if s.len() < lo || hi < s.len() || 8 < s.len() {
        return None;
    }
    scan_hex(s)
}

// The mask of up to eight hex digits with all bits set.
fn ones(width: usize) -> u32
    requires { width ≤ 8 }
    ensures { result ≡ 16 ^ width - 1 }
{
    (16u64.pow(width as u32) - 1) as u32
}

// The mask that a field which is not empty says.
fn allowed(f: &[u8], width: usize) -> Option<u32>
    ensures { result ≡ satellites_of width f.now }
{
    if !digits::same_bytes(f, b"-1") {
        return hex_digits(f, 1, width);
    }
    if 8 < width {
        return None;
    }
    Some(ones(width))
}

// `7FFEFFFF`, `1` or `-1`: the satellites that a command allows, in up to `width` capital hex digits, or
// `-1` for all of them; an empty field is missing, and any other is wrong.
pub fn satellites(f: &[u8], width: usize) -> Got
    ensures { result ≡ satellites_form width f.now }
{
    form::got::maybe(f, allowed(f, width))
}

// `7FFEFFFF`: a mask of exactly `width` capital hex digits, as a reply has it; any other is wrong, an
// empty one too.
pub fn whole(f: &[u8], width: usize) -> Got
    ensures { result ≡ whole_form width f.now }
{
    form::got::told(hex_digits(f, width, width))
}

// Whether bit 7 is zero, and each bit from 12 on.
pub fn is_port_mask(v: u32) -> bool
    ensures { result ≡ is_port_mask v }
{
    v / 128 % 2 == 0 && v / 4096 == 0
}

// The port mask that a field which is not empty says.
fn port_bits(f: &[u8]) -> Option<u32>
    ensures { result ≡ port_mask_of f.now }
{
    hex_digits(f, 4, 4).filter(|&v| is_port_mask(v))
}

// `0F79`: the mask of a port, four capital hex digits with the bits 7 and 12 to 15 zero; an empty field
// is missing, and any other, `0080` too, is wrong.
pub fn port_mask(f: &[u8]) -> Got
    ensures { result ≡ port_mask_form f.now }
{
    form::got::maybe(f, port_bits(f))
}
