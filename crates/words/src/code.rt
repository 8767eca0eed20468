// Masks, and letters and digits with what they mean.
ghost use Rattle.std.specs.Prelude.{◌≡◌};
ghost use Rattle.put.specs.Wrote.{held, Puts};
ghost use Rattle.form_mask.specs.Masks.{print_hex};
ghost use Rattle.words.specs.Codes.{byte_of, code_text, meant_words, width_of};

use crate::nth;

// A digit or a letter of a record as it stands in a line.
fn byte_of(v: u32) -> u8
    ensures { result ≡ byte_of v }
{
    if v < 10 {
        return v as u8 + 48;
    }
    (v % 256) as u8
}

// `A autonomous`: a digit or a letter and what it means.
fn put_meant(out: &mut [u8], at: usize, v: u32, letters: &[u8], meanings: &[u8]) -> usize
    ensures { Puts (held at out.old) (meant_words letters.now meanings.now v)
        (held result out.new) }
{
    let b = byte_of(v);
    let meaning = nth::nth_of(meanings, b',', digits::find(letters, b));
    let a = put::put(out, at, b);
    put::put_bytes(out, a, meaning)
}

// The last `width` hex digits of a mask, as capitals.
fn put_hex(out: &mut [u8], at: usize, width: u32, v: u32) -> usize
    ensures { Puts (held at out.old) (print_hex width v) (held result out.new) }
{
    if width == 0 {
        return at;
    }
    let a = put_hex(out, at, width - 1, v / 16);
    put::put(out, a, digits::hex_of((v % 16) as u8))
}

// How many hex digits a mask has; 0 for a form that is no mask.
fn width(f: u8) -> u32
    ensures { result ≡ width_of f }
{
    match f {
        b'x' => 4,
        b'r' => 6,
        b'g' => 8,
        _ => 0,
    }
}

// A mask, or a letter or digit with what it means.
pub(crate) fn put_code(out: &mut [u8], at: usize, f: u8, v: u32) -> usize
    ensures { Puts (held at out.old) (code_text f v) (held result out.new) }
{
    let w = width(f);
    if w == 0 {
        let k = digits::find(b"smaqf", f);
        let letters = nth::nth_of(b"AV;ADEMSN;MA;012345678;0123", b';', k);
        let sets =
            b" valid, not valid; autonomous, differential, estimated, manual, simulator, not valid; manual, automatic\
            ; no fix, standard fix, differential fix, precise fix, real-time kinematic fix, floating kinematic fix\
            , estimated, manual, simulator;, no fix, two dimensions, three dimensions";
        return put_meant(out, at, v, letters, nth::nth_of(sets, b';', k));
    }
    put_hex(out, at, w, v)
}
