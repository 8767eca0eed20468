// How many bytes the lines of a table are.
ghost use Rattle.std.specs.Prelude.{◌≤◌, cond, ◌≡◌};
ghost use Rattle.sky_write.specs.Size.{entry_size, table_size};

use kind_gsv::Entry;
use sky::Table;

// The bytes of a value that takes `n` of them where it is there.
fn value_size(there: bool, n: usize) -> usize
    ensures { result ≡ cond there n 0 }
{
    if there { n } else { 0 }
}

// The bytes of an entry, with the comma before each of its fields.
fn entry_size(e: Entry) -> usize
    ensures { result ≡ entry_size e }
{
    let elevation = value_size(e.elevation.there, 2);
    let azimuth = value_size(e.azimuth.there, 3);
    let signal = value_size(e.signal.there, 2);
    6 + elevation + azimuth + signal
}

// The bytes of all lines: 18 for each line without its entries, and the entries.
pub fn room(r: Table) -> usize
    requires { r.count ≤ 36 }
    ensures { result ≡ table_size r }
{
    let used = &r.entries[..r.count];
    let mut size = 18 * sky::lines_for(r.count as u32) as usize;
    for e in used {
        size += entry_size(*e);
    }
    size
}
