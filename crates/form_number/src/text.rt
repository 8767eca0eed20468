// Numbers and digits put as the fields that they stand in, each behind its comma; a missing value is an
// empty field. Each function writes from the place `at` on, as far as there is room, and answers the next
// place.
ghost use Rattle.std.specs.Prelude.{[], ◌∷◌};
ghost use Rattle.digits.specs.Decimal.{print_fixed};
ghost use Rattle.digits.specs.Plain.{number_text};
ghost use Rattle.put.specs.Wrote.{held, Puts, PutsFields};
ghost use Rattle.form.specs.Values.{maybe_text};
ghost use Rattle.form_number.specs.Values.{height_field, height_text};

use crate::Signed;
use form::sent::Sent;

// `1`: one digit.
pub fn one<T: Sent>(out: &mut [u8], at: usize, v: T) -> usize
    ensures { PutsFields (held at out.old) (maybe_text (print_fixed 1) (T.sent v) ∷ []) (held result out.new) }
{
    let m = v.sent();
    let a = put::put(out, at, 44);
    if m.there {
        return put::put_one(out, a, m.value);
    }
    a
}

// `05`: two digits.
pub fn two<T: Sent>(out: &mut [u8], at: usize, v: T) -> usize
    ensures { PutsFields (held at out.old) (maybe_text (print_fixed 2) (T.sent v) ∷ []) (held result out.new) }
{
    let m = v.sent();
    let a = put::put(out, at, 44);
    if m.there {
        return put::put_two(out, a, m.value);
    }
    a
}

// `048`: three digits.
pub fn three<T: Sent>(out: &mut [u8], at: usize, v: T) -> usize
    ensures { PutsFields (held at out.old) (maybe_text (print_fixed 3) (T.sent v) ∷ []) (held result out.new) }
{
    let m = v.sent();
    let a = put::put(out, at, 44);
    if m.there {
        return put::put_three(out, a, m.value);
    }
    a
}

// `0120`: four digits.
pub fn four<T: Sent>(out: &mut [u8], at: usize, v: T) -> usize
    ensures { PutsFields (held at out.old) (maybe_text (print_fixed 4) (T.sent v) ∷ []) (held result out.new) }
{
    let m = v.sent();
    let a = put::put(out, at, 44);
    if m.there {
        return put::put_four(out, a, m.value);
    }
    a
}

// `12.5`: a number in thousandths.
pub fn number<T: Sent>(out: &mut [u8], at: usize, v: T) -> usize
    ensures { PutsFields (held at out.old) (maybe_text number_text (T.sent v) ∷ []) (held result out.new) }
{
    let m = v.sent();
    let a = put::put(out, at, 44);
    if m.there {
        return put::put_number(out, a, m.value);
    }
    a
}

fn put_height(out: &mut [u8], at: usize, z: i32) -> usize
    ensures { Puts (held at out.old) (height_text z) (held result out.new) }
{
    let a = put::put_sign(out, at, z);
    put::put_number(out, a, digits::sign::size(z))
}

// `-12.5`: a height in thousandths.
pub fn height(out: &mut [u8], at: usize, z: Signed) -> usize
    ensures { PutsFields (held at out.old) (height_field z ∷ []) (held result out.new) }
{
    let a = put::put(out, at, 44);
    if z.there {
        return put_height(out, a, z.value);
    }
    a
}
