// Positions and the magnetic variation, read.
ghost use Rattle.std.specs.Prelude.{◌≤◌, [], ◌∷◌, ◌≡◌};
ghost use Rattle.digits.specs.Sign.{Under};
ghost use Rattle.form_position.specs.Angle.{angle_of, both_of, lettered_of, position_form, refused_at, sided_of, variation_form, wrong_int};

use crate::Position;
use form::got::GotInt;
use form::unit::only;

// `w` digits of degrees, two of minutes, a point and four more, as ten-thousandths of a minute; none where the
// minutes are not below 60, or the whole is past `limit`.
fn angle(f: &[u8], w: usize, limit: u32) -> Option<u32>
    requires { w ≤ 3 }
    ensures { result ≡ angle_of w limit f.now }
{
    if f.len() != w + 7 || f[w + 2] != b'.' {
        return None;
    }
    let degrees = digits::digits(&f[..w], w, w)?;
    let minutes = digits::digits(&f[w..w + 2], 2, 2)?;
    let parts = digits::digits(&f[w + 3..], 4, 4)?;
    if 60 <= minutes {
        return None;
    }
    let v = degrees * 600000 + minutes * 10000 + parts;
    (v <= limit).then_some(v)
}

// The wrong one of two fields, of which the first is there or empty.
fn wrong_int(wrong: u8, there: bool) -> GotInt
    ensures { result ≡ wrong_int wrong there }
{
    GotInt {
        wrong,
        there,
        value: 0,
    }
}

// A value that is there, with its letter: 1 where the value is wrong, 2 where the letter is neither.
fn lettered(n: Option<u32>, u: &[u8], plus: u8, minus: u8) -> GotInt
    requires { Under 1000000000 n }
    ensures { result ≡ lettered_of (plus ∷ []) (minus ∷ []) u.now n }
{
    let Some(v) = n else {
        return wrong_int(1, true);
    };
    let negative = only(u, minus);
    if !negative && !only(u, plus) {
        return wrong_int(2, true);
    }
    GotInt {
        wrong: 0,
        there: true,
        value: digits::sign::held(v, negative),
    }
}

// A value with its letter, or both empty.
fn sided(f: &[u8], u: &[u8], n: Option<u32>, plus: u8, minus: u8) -> GotInt
    requires { Under 1000000000 n }
    ensures { result ≡ sided_of (plus ∷ []) (minus ∷ []) f.now u.now n }
{
    if !f.is_empty() {
        lettered(n, u, plus, minus)
    } else if u.is_empty() {
        GotInt::default()
    } else {
        wrong_int(2, false)
    }
}

// A position that is refused at one of its four fields, or missing.
fn refused(wrong: u8) -> Position
    ensures { result ≡ refused_at wrong }
{
    Position {
        wrong,
        ..Position::default()
    }
}

// Both or none; where one is there without the other, the third field is wrong.
fn both(a: GotInt, o: GotInt) -> Position
    ensures { result ≡ both_of a o }
{
    if a.wrong != 0 {
        return refused(a.wrong);
    }
    if a.there != o.there || o.wrong == 1 {
        return refused(3);
    }
    if o.wrong != 0 {
        return refused(4);
    }
    Position {
        wrong: 0,
        there: a.there,
        lat: a.value,
        lon: o.value,
    }
}

// `5550.6111,N,03732.2534,E` is 33506111 and 22522534. All four fields are empty, or none. Minutes
// of 60 and more are wrong, latitudes past 90 degrees and longitudes past 180.
pub fn position(lat: &[u8], ns: &[u8], lon: &[u8], ew: &[u8]) -> Position
    ensures { result ≡ position_form lat.now ns.now lon.now ew.now }
{
    let a = sided(lat, ns, angle(lat, 2, 54000000), b'N', b'S');
    let o = sided(lon, ew, angle(lon, 3, 108000000), b'E', b'W');
    both(a, o)
}

// `10.5,W` is -10500. The value is a number below 180, or empty; then the letter may be empty too.
pub fn variation(f: &[u8], u: &[u8]) -> GotInt
    ensures { result ≡ variation_form f.now u.now }
{
    if !f.is_empty() {
        lettered(form_number::read::less(f, 180000), u, b'E', b'W')
    } else if u.is_empty() || only(u, b'E') || only(u, b'W') {
        GotInt::default()
    } else {
        wrong_int(2, false)
    }
}
