// Why a table is refused.
ghost use Rattle.std.specs.Prelude.{◌<◌, ◌≤◌, [], ◌≡◌, drop, length, take};
ghost use Rattle.sky.specs.Marks.{Marks};
ghost use Rattle.sky.specs.Table.{all_blank, entry_wrong, fault_from, table_fault};
ghost use Rattle.sky_write.specs.Looks.{Looks};

use frame::Written;
use kind_gsv::Entry;
use sky::Table;

// The first of an entry's four values that is outside its range, counted from 1, or 0.
fn entry_wrong(e: Entry) -> usize
    ensures { result ≡ entry_wrong e }
{
    kind_gsv::entry_wrong(true, e, 0, 0)
}

// Why the entry in place `i` is refused, and its mark among those of the entries before it: 5 with the field
// where the first value outside its range would stand, 7 where its number is marked already; nothing where
// it is good.
fn entry_fault(seen: &mut [u8], i: usize, e: Entry) -> Written
    requires { (i < 36) × (length seen.old ≡ 100) }
    ensures { Looks i e seen.old result seen.new }
{
    let wrong = entry_wrong(e);
    let line = i / 4 + 1;
    if wrong != 0 {
        return frame::refuse(5, line, 3 + 4 * (i % 4) + wrong);
    }
    if sky::marks::mark(seen, true, e.number) {
        return frame::refuse(7, line, 0);
    }
    frame::fault(0)
}

// The fault of the first used entry that has one.
fn used_fault(seen: &mut [u8], r: Table) -> Written
    requires { (r.count ≤ 36) × ((length seen.old ≡ 100) × Marks [] seen.old) }
    ensures { result ≡ fault_from 0 [] (take r.count r.entries) }
{
    let used = &r.entries[..r.count];
    for (i, e) in used.iter().enumerate() {
        let fault = entry_fault(seen, i, *e);
        if fault.no != 0 {
            return fault;
        }
    }
    frame::fault(0)
}

// Whether each place that is not used is blank.
pub fn rest_blank(r: Table) -> bool
    ensures { result ≡ all_blank (drop r.count r.entries) }
{
    r.entries
        .iter()
        .skip(r.count)
        .all(|e| kind_gsv::is_blank(*e))
}

// Why a table is refused: 5 on line 0 for over 36 entries; 5 or 7 for the first entry that has a fault; then
// 5 on line 0 for a place that is not used and not blank; nothing where it is good.
pub fn fault(r: Table) -> Written
    ensures { result ≡ table_fault r }
{
    if 36 < r.count {
        return frame::refuse(5, 0, 0);
    }
    let mut seen = [0u8; 100];
    let fault = used_fault(&mut seen, r);
    if fault.no != 0 {
        return fault;
    }
    if rest_blank(r) {
        return frame::fault(0);
    }
    frame::refuse(5, 0, 0)
}
