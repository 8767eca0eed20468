// A table of satellites written as a group: as many GSV lines as it takes, each with up to four of them.
#![tactic(auto)]

pub mod faults;
mod sizes;

ghost use Rattle.std.specs.Prelude.{◌≤◌, ◌≡◌};
ghost use Rattle.sky.specs.Table.{line_at, WritesGroup};
ghost use Rattle.sky_write.specs.Ready.{PutsGroup, Ready};

use address::Talker;
use frame::Written;
use kind_gsv::Gsv;
use sky::Table;

// Line `k` of a table.
fn line_of(r: Table, k: u32) -> Gsv
    requires { (1 ≤ k) × ((k ≤ 9) × (r.count ≤ 36)) }
    ensures { result ≡ line_at r k }
{
    let satellites = r.count as u32;
    let lines = sky::lines_for(satellites);
    let count = sky::entries_at(satellites, k);
    let first = 4 * (k as usize - 1);
    let mut entries = [kind_gsv::blank::entry(); 4];
    entries.copy_from_slice(&r.entries[first..first + 4]);
    Gsv {
        lines,
        line: k,
        satellites,
        count,
        entries,
    }
}

// Writes the lines of a table that has no fault into an output that has room for them, each into what the
// lines before it left, and answers how many bytes they are.
fn put_lines(out: &mut [u8], t: Talker, r: Table) -> usize
    requires { Ready t r out.old }
    ensures { PutsGroup t r out.old result out.new }
{
    let lines = sky::lines_for(r.count as u32);
    let mut at: usize = 0;
    for k in 1..=lines {
        let line = line_of(r, k);
        let written = kind_gsv::write(&mut out[at..], t, line);
        at += written.length;
    }
    at
}

// Writes the lines of a table into `out`, and answers how many bytes they are. Refused: 5 and 7 as `fault`
// says, then 8 with line 0 where `out` is shorter than all lines together. A refusal leaves `out`.
//
//     $GPGSV,1,1,01,05,,,*7D
pub fn write(out: &mut [u8], t: Talker, r: Table) -> Written
    ensures { WritesGroup t r out.old result out.new }
{
    let fault = faults::fault(r);
    if fault.no != 0 {
        return fault;
    }
    let room = sizes::room(r);
    if out.len() < room {
        return frame::refuse(8, 0, 0);
    }
    let length = put_lines(out, t, r);
    Written {
        no: 0,
        line: 0,
        field: 0,
        length,
    }
}
