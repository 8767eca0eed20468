// The group: a satellite list of one line or of several. What a whole sky is, what one byte of damage does to it,
// and what its reader and its writer share.
#![tactic(auto)]

pub mod marks;

ghost use Rattle.std.specs.Prelude.{◌≡◌, ◌≤◌};
ghost use Rattle.sky.specs.Group.{lines_for, entries_at};

use address::Talker;
use kind_gsv::Entry;

// Satellites in order: `count` places are used, the others are blank. There is no heap, and a host is handed all 36 places.
#[derive(Clone, Copy)]
pub struct Table {
    pub count: usize,
    pub entries: [Entry; 36],
}

// A whole sky with its talker; or number, line and field of the refusal, and then no talker and a blank table.
#[derive(Clone, Copy)]
pub struct Sky {
    pub no: u8,
    pub line: usize,
    pub field: usize,
    pub talker: Option<Talker>,
    pub table: Table,
}

// How many lines so many satellites take.
pub fn lines_for(n: u32) -> u32
    requires { n ≤ 99 }
    ensures { result ≡ lines_for n }
{
    if n == 0 { 1 } else { n.div_ceil(4) }
}

// How many entries line `k` of so many satellites has.
pub fn entries_at(n: u32, k: u32) -> u32
    requires { (1 ≤ k) × (k ≤ 9) }
    ensures { result ≡ entries_at n k }
{
    n.saturating_sub(4 * (k - 1)).min(4)
}
