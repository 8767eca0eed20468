// Records read and written by C, as numbers.
ghost use Rattle.std.specs.Prelude.{◌≡◌};
ghost use Rattle.sentence.specs.Lines.{read_line};
ghost use Rattle.sentence.specs.ToHost.{told_for, laid_for};
ghost use Rattle.sentence.specs.FromHost.{written_as, left_as};
ghost use Rattle.host.specs.Answer.{set_at, single_line};

#[unsafe(no_mangle)]
pub extern "C" fn castanwel_read(
    line: &[u8],
    numbers: &mut [i64],
    kind: &mut u32,
    at_line: &mut usize,
    field: &mut usize,
) -> u8
    ensures value { result ≡ (told_for (read_line line.now) numbers.old).no }
    ensures kind_after { kind.new ≡ set_at (told_for (read_line line.now) numbers.old).no
        (told_for (read_line line.now) numbers.old).kind kind.old }
    ensures at_line_after { at_line.new ≡ single_line (told_for (read_line line.now) numbers.old).no }
    ensures field_after { field.new ≡ (told_for (read_line line.now) numbers.old).field }
    ensures numbers_after { numbers.new ≡ laid_for (read_line line.now) numbers.old }
{
    host::sentences::castanwel_read(line, numbers, kind, at_line, field)
}

#[unsafe(no_mangle)]
pub extern "C" fn castanwel_write(
    kind: u32,
    numbers: &[i64],
    out: &mut [u8],
    length: &mut usize,
    line: &mut usize,
    field: &mut usize,
) -> u8
    ensures value { result ≡ (written_as kind numbers.now out.old).no }
    ensures length_after { length.new ≡ set_at (written_as kind numbers.now out.old).no
        (written_as kind numbers.now out.old).length length.old }
    ensures line_after { line.new ≡ (written_as kind numbers.now out.old).line }
    ensures field_after { field.new ≡ (written_as kind numbers.now out.old).field }
    ensures out_after { out.new ≡ left_as kind numbers.now out.old }
{
    host::sentences::castanwel_write(kind, numbers, out, length, line, field)
}
