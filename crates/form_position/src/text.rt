// Positions and the variation, each with the letter of its side.
ghost use Rattle.std.specs.Prelude.{◌%◌, ◌/◌, [], ◌++◌, ◌∷◌, nat_abs};
ghost use Rattle.digits.specs.Decimal.{print_fixed};
ghost use Rattle.put.specs.Wrote.{held, Puts, PutsFields};
ghost use Rattle.form.specs.Values.{if_there};
ghost use Rattle.form_position.specs.Angle.{angle_text};
ghost use Rattle.form_position.specs.Values.{ew_field, lat_field, lon_field, ns_field, side_text, variation_field, variation_side};

use crate::{Place, split};
use form_number::{Number, Signed};

// `50.6111`: the minutes of an angle.
fn put_arc(out: &mut [u8], at: usize, z: i32) -> usize
    ensures { Puts (held at out.old) (print_fixed 2 (nat_abs z / 10000 % 60) ++ (46 ∷ print_fixed 4 (nat_abs z % 10000)))
        (held result out.new) }
{
    let arc = split::arc(z);
    let a0 = put::put_two(out, at, arc / 10000);
    let a1 = put::put(out, a0, 46);
    put::put_four(out, a1, arc % 10000)
}

fn put_latitude(out: &mut [u8], at: usize, z: i32) -> usize
    ensures { Puts (held at out.old) (angle_text 2 (nat_abs z)) (held result out.new) }
{
    let a = put::put_two(out, at, split::degrees(z));
    put_arc(out, a, z)
}

fn put_longitude(out: &mut [u8], at: usize, z: i32) -> usize
    ensures { Puts (held at out.old) (angle_text 3 (nat_abs z)) (held result out.new) }
{
    let a = put::put_three(out, at, split::degrees(z));
    put_arc(out, a, z)
}

fn put_side(out: &mut [u8], at: usize, z: i32, plus: u8, minus: u8) -> usize
    ensures { Puts (held at out.old) (side_text (plus ∷ []) (minus ∷ []) z) (held result out.new) }
{
    if z < 0 {
        return put::put(out, at, minus);
    }
    put::put(out, at, plus)
}

// `5550.6111`. The mark stands beside the angle, as beside the longitude and the letters: a place has one for all four fields.
fn latitude(out: &mut [u8], at: usize, there: bool, z: i32) -> usize
    ensures { PutsFields (held at out.old) (if_there there (angle_text 2 (nat_abs z)) ∷ []) (held result out.new) }
{
    let a = put::put(out, at, 44);
    if there {
        return put_latitude(out, a, z);
    }
    a
}

// `03732.2534`
fn longitude(out: &mut [u8], at: usize, there: bool, z: i32) -> usize
    ensures { PutsFields (held at out.old) (if_there there (angle_text 3 (nat_abs z)) ∷ []) (held result out.new) }
{
    let a = put::put(out, at, 44);
    if there {
        return put_longitude(out, a, z);
    }
    a
}

// The letter of a side; zero is on the first.
fn side(out: &mut [u8], at: usize, there: bool, z: i32, plus: u8, minus: u8) -> usize
    ensures { PutsFields (held at out.old) (if_there there (side_text (plus ∷ []) (minus ∷ []) z) ∷ [])
        (held result out.new) }
{
    let a = put::put(out, at, 44);
    if there {
        return put_side(out, a, z, plus, minus);
    }
    a
}

// `5550.6111,N,03732.2534,E`: a position.
pub fn place(out: &mut [u8], at: usize, p: Place) -> usize
    ensures { PutsFields (held at out.old) (lat_field p ∷ ns_field p ∷ lon_field p ∷ ew_field p ∷ [])
        (held result out.new) }
{
    let lat = p.lat;
    let lon = p.lon;
    let a0 = latitude(out, at, p.there, lat);
    let a1 = side(out, a0, p.there, lat, 78, 83);
    let a2 = longitude(out, a1, p.there, lon);
    side(out, a2, p.there, lon, 69, 87)
}

// `12.5,W`: a variation, east positive.
pub fn variation(out: &mut [u8], at: usize, n: Signed) -> usize
    ensures { PutsFields (held at out.old) (variation_field n ∷ variation_side n ∷ []) (held result out.new) }
{
    let there = n.there;
    let value = digits::sign::size(n.value);
    let a = form_number::text::number(out, at, Number { there, value });
    side(out, a, there, n.value, 69, 87)
}
