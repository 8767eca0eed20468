// What the program skies prints of a run. Each function writes into a lent buffer from the place `at` on, as far as
// there is room, leaves all other bytes, and answers the next place.
#![tactic(auto)]

ghost use Rattle.std.specs.Prelude.{min, ◌≡◌, length, take};
ghost use Rattle.put.specs.Wrote.{held, Puts};
ghost use Rattle.frame.specs.Body.{talker_text};
ghost use Rattle.sky.specs.Group.{group_of};
ghost use Rattle.skies_rows.specs.Rows.{count_text, place_text, refused_text, run_text, satellites_text, satellite_text};
ghost use Rattle.skies_rows.specs.Rows.{sent_text, sky_text, where_text};

use address::Talker;
use form::Maybe;
use kind_gsv::Entry;
use sky::Table;

// ` 33`, or ` -` for what was not sent.
fn put_sent(out: &mut [u8], at: usize, v: Maybe) -> usize
    ensures { Puts (held at out.old) (sent_text v) (held result out.new) }
{
    let a = put::put(out, at, 32);
    if v.there {
        return text::put_number(out, a, v.value as u64);
    }
    put::put(out, a, 45)
}

// `25 4 310 -`: number, elevation, azimuth and signal of a satellite.
fn put_satellite(out: &mut [u8], at: usize, e: Entry) -> usize
    ensures { Puts (held at out.old) (satellite_text e) (held result out.new) }
{
    let a1 = text::put_number(out, at, e.number as u64);
    let a2 = put_sent(out, a1, e.elevation);
    let a3 = put_sent(out, a2, e.azimuth);
    let a4 = put_sent(out, a3, e.signal);
    put::put(out, a4, 10)
}

// The satellites of a table, a row each.
fn put_satellites(out: &mut [u8], at: usize, table: Table) -> usize
    ensures { Puts (held at out.old) (satellites_text (take (min 36 table.count) table.entries))
        (held result out.new) }
{
    let used = &table.entries[..table.count.min(36)];
    let mut place = at;
    for e in used {
        place = put_satellite(out, place, *e);
    }
    place
}

fn put_talker(out: &mut [u8], at: usize, t: Talker) -> usize
    ensures { Puts (held at out.old) (talker_text t) (held result out.new) }
{
    match t {
        Talker::Gp => put::put_bytes(out, at, b"GP"),
        Talker::Gl => put::put_bytes(out, at, b"GL"),
        Talker::Ga => put::put_bytes(out, at, b"GA"),
        Talker::Gq => put::put_bytes(out, at, b"GQ"),
        Talker::Gn => put::put_bytes(out, at, b"GN"),
    }
}

// `, 5 satellites`, with its LF.
fn put_count(out: &mut [u8], at: usize, count: usize) -> usize
    ensures { Puts (held at out.old) (count_text count) (held result out.new) }
{
    let a1 = put::put_bytes(out, at, b", ");
    let a2 = text::put_number(out, a1, count as u64);
    if count == 1 {
        return put::put_bytes(out, a2, b" satellite\n");
    }
    put::put_bytes(out, a2, b" satellites\n")
}

// `4, offset 212: `: the number of the first line of a run, and how many bytes of the log stand before it.
fn put_place(out: &mut [u8], at: usize, number: u64, offset: u64) -> usize
    ensures { Puts (held at out.old) (place_text number offset) (held result out.new) }
{
    let a1 = text::put_number(out, at, number);
    let a2 = put::put_bytes(out, a1, b", offset ");
    let a3 = text::put_number(out, a2, offset);
    put::put_bytes(out, a3, b": ")
}

// ` at its line 2, field 0: `: the line of a run that was refused, and the field.
fn put_where(out: &mut [u8], at: usize, line: usize, field: usize) -> usize
    ensures { Puts (held at out.old) (where_text line field) (held result out.new) }
{
    let a1 = put::put_bytes(out, at, b" at its line ");
    let a2 = text::put_number(out, a1, line as u64);
    let a3 = put::put_bytes(out, a2, b", field ");
    let a4 = text::put_number(out, a3, field as u64);
    put::put_bytes(out, a4, b": ")
}

// `refused 6 at its line 2, field 0: a line does not go with its group`, with its LF.
fn put_refused(out: &mut [u8], at: usize, no: u8, line: usize, field: usize) -> usize
    ensures { Puts (held at out.old) (refused_text no line field) (held result out.new) }
{
    let a1 = put::put_bytes(out, at, b"refused ");
    let a2 = text::put_number(out, a1, no as u64);
    let a3 = put_where(out, a2, line, field);
    let a4 = words::put_refusal(out, a3, no);
    put::put(out, a4, 10)
}

// `GP, 5 satellites`, then its satellites.
fn put_sky(out: &mut [u8], at: usize, t: Talker, table: Table) -> usize
    ensures { Puts (held at out.old) (sky_text t table.count (take (min 36 table.count) table.entries))
        (held result out.new) }
{
    let a1 = put_talker(out, at, t);
    let a2 = put_count(out, a1, table.count);
    put_satellites(out, a2, table)
}

// The rows of a run, whose first line has a number and an offset: a whole sky with its satellites, or the refusal of
// the group reader in words.
//
//     sky at line 4, offset 212: GP, 5 satellites
//     no sky at line 9, offset 780: refused 6 at its line 2, field 0: a line does not go with its group
pub fn put_run(out: &mut [u8], at: usize, number: u64, offset: u64, run: &[u8]) -> usize
    ensures { Puts (held at out.old) (run_text number offset (group_of run.now)) (held result out.new) }
{
    let sky = sky_read::read(run);
    let Some(t) = sky.talker else {
        let a1 = put::put_bytes(out, at, b"no sky at line ");
        let a2 = put_place(out, a1, number, offset);
        return put_refused(out, a2, sky.no, sky.line, sky.field);
    };
    let a3 = put::put_bytes(out, at, b"sky at line ");
    let a4 = put_place(out, a3, number, offset);
    put_sky(out, a4, t, sky.table)
}
