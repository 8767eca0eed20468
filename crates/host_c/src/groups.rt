// Groups of satellites as C reads and writes them.
ghost use Rattle.std.specs.Prelude.{◌≡◌};
ghost use Rattle.sky.specs.Group.{group_of};
ghost use Rattle.host.specs.Answer.{set_at};
ghost use Rattle.host.specs.Group.{group_put, handed};

#[unsafe(no_mangle)]
pub extern "C" fn castanwel_read_group(
    s: &[u8],
    numbers: &mut [i64],
    line: &mut usize,
    field: &mut usize,
) -> u8
    ensures value { result ≡ (handed (group_of s.now) numbers.old).no }
    ensures line_after { line.new ≡ (handed (group_of s.now) numbers.old).line }
    ensures field_after { field.new ≡ (handed (group_of s.now) numbers.old).field }
    ensures numbers_after { numbers.new ≡ (handed (group_of s.now) numbers.old).numbers }
{
    host::groups::castanwel_read_group(s, numbers, line, field)
}

#[unsafe(no_mangle)]
pub extern "C" fn castanwel_write_group(
    numbers: &[i64],
    out: &mut [u8],
    length: &mut usize,
    line: &mut usize,
    field: &mut usize,
) -> u8
    ensures value { result ≡ (group_put numbers.now out.old).answer.no }
    ensures length_after { length.new ≡ set_at (group_put numbers.now out.old).answer.no
        (group_put numbers.now out.old).answer.length length.old }
    ensures line_after { line.new ≡ (group_put numbers.now out.old).answer.line }
    ensures field_after { field.new ≡ (group_put numbers.now out.old).answer.field }
    ensures out_after { out.new ≡ (group_put numbers.now out.old).out }
{
    host::groups::castanwel_write_group(numbers, out, length, line, field)
}
