// A table of satellites and its talker as 254 numbers in a lent slice.
#![tactic(auto)]

ghost use Rattle.std.specs.Prelude.{◌≡◌, [], ◌≤◌, leb, length};
ghost use Rattle.numbers.specs.Numbers.{laid};
ghost use Rattle.numbers.specs.Layout.{list_numbers};
ghost use Rattle.kind_gsv.specs.Row.{entry_layout};
ghost use Rattle.sky_numbers.specs.Numbers.{sky_numbers, table_at};

use address::Talker;
use kind_gsv::{Entry, blank};
use sky::Table;

// Stores the numbers of 36 entries at the start of `out`, where there is room for them.
fn lay_entries(out: &mut [i64], s: [Entry; 36]) -> bool
    ensures { out.new ≡ laid (list_numbers entry_layout s []) out.old }
{
    if out.len() < 252 {
        return false;
    }
    for (i, e) in s.iter().enumerate() {
        kind_gsv::lay_entry(&mut out[7 * i..], *e);
    }
    true
}

// Stores the 254 numbers of a table and its talker at the start of `out` and answers whether there was room;
// where there was none, `out` is left.
pub fn lay(out: &mut [i64], t: Talker, r: Table) -> bool
    requires { r.count ≤ 36 }
    ensures value { result ≡ leb 254 (length out.old) }
    ensures out_after { out.new ≡ laid (sky_numbers t r) out.old }
{
    if out.len() < 254 {
        return false;
    }
    let talker = numbers::talker_number(t);
    let first = [talker as i64, r.count as i64];
    numbers::lay(out, &first);
    lay_entries(&mut out[2..], r.entries);
    true
}

// The table that numbers say; one past their end is taken as 0.
pub fn table_at(numbers: &[i64]) -> Table
    ensures { result ≡ table_at numbers.now }
{
    let mut entries = [blank::entry(); 36];
    for (i, e) in entries.iter_mut().enumerate() {
        *e = kind_gsv::entry_at(numbers, (2 + 7 * i) as u16);
    }
    Table {
        count: numbers::whole_at(numbers, 1) as usize,
        entries,
    }
}
