// Masks in capital hex digits.
ghost use Rattle.std.specs.Prelude.{◌%◌, [], ◌∷◌, ◌≡◌};
ghost use Rattle.digits.specs.Hex.{hex_of};
ghost use Rattle.digits.specs.Plain.{plain_text};
ghost use Rattle.put.specs.Wrote.{held, Puts, PutsFields};
ghost use Rattle.form.specs.Values.{maybe_text};
ghost use Rattle.form_mask.specs.Masks.{print_hex};

use form::sent::Sent;

// The last hex digit of `v`.
fn digit(v: u32) -> u8
    ensures { result ≡ hex_of (v % 16) }
{
    digits::hex_of((v % 16) as u8)
}

// The last two, four, six and eight hex digits of `v`.
fn put_two(out: &mut [u8], at: usize, v: u32) -> usize
    ensures { Puts (held at out.old) (print_hex 2 v) (held result out.new) }
{
    let a = put::put(out, at, digit(v / 16));
    put::put(out, a, digit(v))
}

fn put_four(out: &mut [u8], at: usize, v: u32) -> usize
    ensures { Puts (held at out.old) (print_hex 4 v) (held result out.new) }
{
    let a = put_two(out, at, v / 16 / 16);
    put_two(out, a, v)
}

fn put_six(out: &mut [u8], at: usize, v: u32) -> usize
    ensures { Puts (held at out.old) (print_hex 6 v) (held result out.new) }
{
    let a = put_two(out, at, v / 16 / 16 / 16 / 16);
    put_four(out, a, v)
}

fn put_eight(out: &mut [u8], at: usize, v: u32) -> usize
    ensures { Puts (held at out.old) (print_hex 8 v) (held result out.new) }
{
    let a = put_four(out, at, v / 16 / 16 / 16 / 16);
    put_four(out, a, v)
}

// `0F79`: the mask of a port.
pub fn four<T: Sent>(out: &mut [u8], at: usize, v: T) -> usize
    ensures { PutsFields (held at out.old) (maybe_text (print_hex 4) (T.sent v) ∷ []) (held result out.new) }
{
    let m = v.sent();
    let a = put::put(out, at, 44);
    if m.there {
        return put_four(out, a, m.value);
    }
    a
}

// `FFFFFE`: a mask of GLONASS satellites.
pub fn six<T: Sent>(out: &mut [u8], at: usize, v: T) -> usize
    ensures { PutsFields (held at out.old) (maybe_text (print_hex 6) (T.sent v) ∷ []) (held result out.new) }
{
    let m = v.sent();
    let a = put::put(out, at, 44);
    if m.there {
        return put_six(out, a, m.value);
    }
    a
}

// `7FFEFFFF`: a mask of GPS satellites.
pub fn eight<T: Sent>(out: &mut [u8], at: usize, v: T) -> usize
    ensures { PutsFields (held at out.old) (maybe_text (print_hex 8) (T.sent v) ∷ []) (held result out.new) }
{
    let m = v.sent();
    let a = put::put(out, at, 44);
    if m.there {
        return put_eight(out, a, m.value);
    }
    a
}

// `4800`: a number without needless zeros.
pub fn plain<T: Sent>(out: &mut [u8], at: usize, v: T) -> usize
    ensures { PutsFields (held at out.old) (maybe_text plain_text (T.sent v) ∷ []) (held result out.new) }
{
    let m = v.sent();
    let a = put::put(out, at, 44);
    if m.there {
        return put::put_plain(out, a, m.value);
    }
    a
}
