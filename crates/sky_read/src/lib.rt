// The group reader: lines in order, read as a whole sky or not at all.
#![tactic(auto)]

mod repeats;

ghost use Rattle.std.specs.Prelude.{true, [], ◌≡◌, length};
ghost use Rattle.sky.specs.Group.{follows, group_of, in_place, talker_no};
ghost use Rattle.sky.specs.Sky.{refused_sky, sky_of};
ghost use Rattle.sky_read.specs.Steps.{seen_of, sky_end, Sound, Steps};

use address::Talker;
use kind_gsv::{Entry, Gsv};
use sky::{Sky, Table};

// What line 1 said.
#[derive(Clone, Copy)]
pub struct Head {
    pub talker: Talker,
    pub lines: u32,
    pub satellites: u32,
}

// A line that was taken.
#[derive(Clone, Copy)]
pub struct Taken {
    pub talker: Talker,
    pub gsv: Gsv,
}

// Why a line ends the group: the number and the field of the refusal.
#[derive(Clone, Copy)]
pub struct Stop {
    pub no: u8,
    pub field: usize,
}

fn refuse(no: u8, line: usize, field: usize) -> Sky
    ensures { result ≡ refused_sky no line field }
{
    let none = kind_gsv::blank::entry();
    let entries = [none; 36];
    Sky {
        no,
        line,
        field,
        talker: None,
        table: Table { count: 0, entries },
    }
}

fn talker_no(t: Talker) -> u8
    ensures { result ≡ talker_no t }
{
    match t {
        Talker::Gp => 0,
        Talker::Gl => 1,
        Talker::Ga => 2,
        Talker::Gq => 3,
        Talker::Gn => 4,
    }
}

// Whether a line stands in its place: it carries number `k`, is no later than the last, and has as many
// entries as it must.
fn in_place(k: usize, v: Gsv) -> bool
    requires { Sound v }
    ensures { result ≡ in_place k v }
{
    let entries = sky::entries_at(v.satellites, v.line);
    v.line as usize == k && v.line <= v.lines && v.count == entries
}

// Whether line `k` goes with what was said before it: line 1 announces as many lines as its satellites take,
// a later one repeats talker, total and satellite count.
fn follows(head: Option<Head>, k: usize, t: Talker, v: Gsv) -> bool
    requires { Sound v }
    ensures { result ≡ follows (seen_of head []) k t v }
{
    let here = in_place(k, v);
    match head {
        None => v.lines == sky::lines_for(v.satellites) && here,
        Some(first) => {
            talker_no(first.talker) == talker_no(t)
                && first.lines == v.lines
                && first.satellites == v.satellites
                && here
        }
    }
}

// What line `k` comes to: it is read in full first, so its own 1 to 5 come before 6; 7 comes after 6.
fn step(seen: &mut [u8], head: Option<Head>, k: usize, line: &[u8]) -> Result<Taken, Stop>
    requires { length seen.old ≡ 100 }
    ensures { Steps head k line.now seen.old result seen.new }
{
    let mut n = [0i64; 33];
    let told = sentence::read(line, &mut n);
    if told.no != 0 {
        return Err(Stop {
            no: told.no,
            field: told.field,
        });
    }
    if told.kind != 4 {
        return Err(Stop { no: 6, field: 0 });
    }
    let talker = numbers::talker_of(numbers::whole_at(&n, 0));
    let gsv = kind_gsv::at(&n);
    let follows = follows(head, k, talker, gsv);
    let repeats = repeats::in_line(seen, gsv);
    if !follows {
        return Err(Stop { no: 6, field: 0 });
    }
    if repeats {
        return Err(Stop { no: 7, field: 0 });
    }
    Ok(Taken { talker, gsv })
}

// What the group comes to where its lines end, before line `k`: too soon is 6.
fn finish(head: Option<Head>, k: usize, entries: [Entry; 36]) -> Sky
    ensures { result ≡ sky_end head k entries }
{
    match head {
        Some(head) if head.lines as usize + 1 == k => Sky {
            no: 0,
            line: 0,
            field: 0,
            talker: Some(head.talker),
            table: Table {
                count: head.satellites as usize,
                entries,
            },
        },
        _ => refuse(6, k, 0),
    }
}

// The satellites of a group, whole and in order; or the refusal of the first line that has one: 1 to 5 of its
// own, 6 where it does not go with the lines before it or the lines end too soon, 7 where it repeats a
// satellite.
//
//     $GPGSV,2,1,05,02,10,104,33,05,60,017,47,12,33,201,40,25,04,310,*7A
//     $GPGSV,2,2,05,29,71,048,53*4B
pub fn read(s: &[u8]) -> Sky
    ensures { result ≡ sky_of (group_of s.now) }
{
    if s.len() == 0 {
        return refuse(1, 1, 0);
    }
    let none = kind_gsv::blank::entry();
    let mut entries = [none; 36];
    let mut seen = [0u8; 100];
    let mut head = None;
    let mut at: usize = 0;
    let mut k: usize = 1;
    // No `for`: each line starts where the one before it ends.
    while at < s.len() {
        let end = lines::line_end(s, at);
        let taken = match step(&mut seen, head, k, &s[at..end]) {
            Ok(taken) => taken,
            Err(stop) => return refuse(stop.no, k, stop.field),
        };
        head = Some(Head {
            talker: taken.talker,
            lines: taken.gsv.lines,
            satellites: taken.gsv.satellites,
        });
        let first = 4 * (k - 1);
        entries[first..first + 4].copy_from_slice(&taken.gsv.entries);
        k += 1;
        at = end;
    }
    finish(head, k, entries)
}
