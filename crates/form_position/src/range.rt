// Whether a position is in its range.
ghost use Rattle.std.specs.Prelude.{◌≡◌};
ghost use Rattle.form_position.specs.Values.{place_wrong};

use crate::Place;

// A position: 1 for the latitude, 3 for the longitude.
pub fn place(p: Place) -> u8
    ensures { result ≡ place_wrong p }
{
    if form::range::signed(p.there, p.lat, 54000000) != 0 {
        1
    } else if form::range::signed(p.there, p.lon, 108000000) != 0 {
        3
    } else {
        0
    }
}
