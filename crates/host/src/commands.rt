// The class receiver as Rust or C keeps it: its settings as eleven numbers, and the step of a command.
ghost use Rattle.std.specs.Prelude.{◌≡◌};
ghost use Rattle.receiver.specs.Settings.{at_start};
ghost use Rattle.numbers.specs.Numbers.{laid};
ghost use Rattle.receiver_numbers.specs.Numbers.{setting_numbers};
ghost use Rattle.host.specs.Answer.{set_at};
ghost use Rattle.host.specs.Command.{counts_at, start_no, stepped};

use crate::answers;
use frame::Written;
use receiver::Counts;

// Stores the settings at start as eleven numbers at the start of `settings`, and returns 0; or 8 where that is too
// short, and then `settings` is left. `line` and `field`, those of the refusal, are set to 0.
pub fn castanwel_start(settings: &mut [i64], line: &mut usize, field: &mut usize) -> u8
    ensures value { result ≡ start_no settings.old }
    ensures line_after { (line.new ≡ 0) × (field.new ≡ 0) }
    ensures settings_after { settings.new ≡ laid (setting_numbers at_start) settings.old }
{
    *line = 0;
    *field = 0;
    if receiver_numbers::lay(settings, receiver::state::at_start()) {
        return 0;
    }
    8
}

// Carries out the command in `line` on the settings that eleven numbers say, and stores the settings after it
// there. Refused: 5 with line 0 where there are fewer or the GPS mask does not fit; then as `receiver::step` does.
fn step(settings: &mut [i64], arrival: u32, line: &[u8], out: &mut [u8]) -> Written
    ensures value { result ≡ (stepped settings.old arrival line.now out.old).answer }
    ensures settings_after { settings.new ≡ (stepped settings.old arrival line.now out.old).numbers }
    ensures out_after { out.new ≡ (stepped settings.old arrival line.now out.old).out }
{
    if !receiver_numbers::are_said(settings) {
        return frame::refuse(5, 0, 0);
    }
    let done = receiver::step(receiver_numbers::at(settings), arrival, line, out);
    let written = done.written;
    let after = done.settings;
    if written.no == 0 {
        receiver_numbers::lay(settings, after);
    }
    written
}

// Carries out the command in `line`, which arrived on port `arrival`, on the settings, and writes the reply into
// `out`. Returns the number of the refusal, 0 where there is a reply. `length` is set to the length of the reply,
// `at_line` and `field` to those of the refusal, or to 0. A refusal leaves `settings`, `out` and `length`.
pub fn castanwel_step(
    settings: &mut [i64],
    arrival: u32,
    line: &[u8],
    out: &mut [u8],
    length: &mut usize,
    at_line: &mut usize,
    field: &mut usize,
) -> u8
    ensures value { result ≡ (stepped settings.old arrival line.now out.old).answer.no }
    ensures length_after { length.new ≡ set_at (stepped settings.old arrival line.now out.old).answer.no
        (stepped settings.old arrival line.now out.old).answer.length length.old }
    ensures at_line_after { at_line.new ≡ (stepped settings.old arrival line.now
        out.old).answer.line }
    ensures field_after { field.new ≡ (stepped settings.old arrival line.now out.old).answer.field }
    ensures settings_after { settings.new ≡ (stepped settings.old arrival line.now out.old).numbers }
    ensures out_after { out.new ≡ (stepped settings.old arrival line.now out.old).out }
{
    let written = step(settings, arrival, line, out);
    *length = answers::kept(written.no, written.length, *length);
    *at_line = written.line;
    *field = written.field;
    written.no
}

// How many satellites the settings allow that eleven numbers say. Refused: 5 where there are fewer, where the GPS mask
// does not fit, or where a setting is out of its range.
fn counts(settings: &[i64]) -> Counts
    ensures { result ≡ counts_at settings.now }
{
    if !receiver_numbers::are_said(settings) {
        return Counts {
            no: 5,
            line: 0,
            field: 0,
            gps: 0,
            glonass: 0,
        };
    }
    receiver::state::counts(receiver_numbers::at(settings))
}

// Sets `gps` and `glonass` to how many satellites of each the settings allow, and returns 0; or 5 where the settings
// are not eleven numbers in range, and then both are left. `line` and `field` are set to those of the refusal, or to 0.
pub fn castanwel_counts(
    settings: &[i64],
    gps: &mut u32,
    glonass: &mut u32,
    line: &mut usize,
    field: &mut usize,
) -> u8
    ensures value { result ≡ (counts_at settings.now).no }
    ensures gps_after { gps.new ≡ set_at (counts_at settings.now).no
        (counts_at settings.now).gps gps.old }
    ensures glonass_after { glonass.new ≡ set_at (counts_at settings.now).no
        (counts_at settings.now).glonass glonass.old }
    ensures line_after { line.new ≡ (counts_at settings.now).line }
    ensures field_after { field.new ≡ (counts_at settings.now).field }
{
    let counts = counts(settings);
    *gps = answers::kept(counts.no, counts.gps, *gps);
    *glonass = answers::kept(counts.no, counts.glonass, *glonass);
    *line = counts.line;
    *field = counts.field;
    counts.no
}
