// A position that was read as a value of a record.
ghost use Rattle.std.specs.Prelude.{◌≡◌};
ghost use Rattle.form_position.specs.Values.{placed_of};

use crate::{Place, Position};

impl From<Position> for Place {
    ghost from_gives = { λ p v. v ≡ placed_of p };

    fn from(p: Position) -> Place {
        Place {
            there: p.there,
            lat: p.lat,
            lon: p.lon,
        }
    }
}
