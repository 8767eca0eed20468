// Whether the mask of a port is one.
ghost use Rattle.std.specs.Prelude.{◌≡◌};
ghost use Rattle.form_mask.specs.Masks.{port_wrong};

use crate::read;

// The mask of a port, which may be missing.
pub fn port_mask(there: bool, v: u32) -> u8
    ensures { result ≡ port_wrong there v }
{
    let good = if there { read::is_port_mask(v) } else { v == 0 };
    if good { 0 } else { 1 }
}
