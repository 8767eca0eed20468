// The class receiver as C keeps it.
ghost use Rattle.std.specs.Prelude.{◌≡◌};
ghost use Rattle.receiver.specs.Settings.{at_start};
ghost use Rattle.numbers.specs.Numbers.{laid};
ghost use Rattle.receiver_numbers.specs.Numbers.{setting_numbers};
ghost use Rattle.host.specs.Answer.{set_at};
ghost use Rattle.host.specs.Command.{counts_at, start_no, stepped};

#[unsafe(no_mangle)]
pub extern "C" fn castanwel_start(settings: &mut [i64], line: &mut usize, field: &mut usize) -> u8
    ensures value { result ≡ start_no settings.old }
    ensures line_after { (line.new ≡ 0) × (field.new ≡ 0) }
    ensures settings_after { settings.new ≡ laid (setting_numbers at_start) settings.old }
{
    host::commands::castanwel_start(settings, line, field)
}

#[unsafe(no_mangle)]
pub extern "C" fn castanwel_step(
    settings: &mut [i64],
    arrival: u32,
    line: &[u8],
    out: &mut [u8],
    length: &mut usize,
    at_line: &mut usize,
    field: &mut usize,
) -> u8
    ensures value { result ≡ (stepped settings.old arrival line.now out.old).answer.no }
    ensures length_after { length.new ≡ set_at (stepped settings.old arrival line.now out.old).answer.no
        (stepped settings.old arrival line.now out.old).answer.length length.old }
    ensures at_line_after { at_line.new ≡ (stepped settings.old arrival line.now
        out.old).answer.line }
    ensures field_after { field.new ≡ (stepped settings.old arrival line.now out.old).answer.field }
    ensures settings_after { settings.new ≡ (stepped settings.old arrival line.now out.old).numbers }
    ensures out_after { out.new ≡ (stepped settings.old arrival line.now out.old).out }
{
    host::commands::castanwel_step(settings, arrival, line, out, length, at_line, field)
}

#[unsafe(no_mangle)]
pub extern "C" fn castanwel_counts(
    settings: &[i64],
    gps: &mut u32,
    glonass: &mut u32,
    line: &mut usize,
    field: &mut usize,
) -> u8
    ensures value { result ≡ (counts_at settings.now).no }
    ensures gps_after { gps.new ≡ set_at (counts_at settings.now).no
        (counts_at settings.now).gps gps.old }
    ensures glonass_after { glonass.new ≡ set_at (counts_at settings.now).no
        (counts_at settings.now).glonass glonass.old }
    ensures line_after { line.new ≡ (counts_at settings.now).line }
    ensures field_after { field.new ≡ (counts_at settings.now).field }
{
    host::commands::castanwel_counts(settings, gps, glonass, line, field)
}
