// The index beside a log as C keeps it.
ghost use Rattle.std.specs.Prelude.{◌≡◌, length};
ghost use Rattle.index.specs.Index.{read_index};
ghost use Rattle.index.specs.Answers.{written_index, left_index, listed_for, laid_for, added_index, left_added, found_in};
ghost use Rattle.host.specs.Answer.{set_at};
ghost use Rattle.host.specs.Index.{entry_with};

#[unsafe(no_mangle)]
pub extern "C" fn castanwel_index_write(
    entries: &[u64],
    out: &mut [u8],
    size: &mut usize,
    line: &mut usize,
    field: &mut usize,
) -> u8
    ensures value { result ≡ (written_index entries.now (length out.old)).no }
    ensures size_after { size.new ≡ set_at (written_index entries.now (length out.old)).no
        (written_index entries.now (length out.old)).length size.old }
    ensures line_after { line.new ≡ (written_index entries.now (length out.old)).line }
    ensures field_after { field.new ≡ (written_index entries.now (length out.old)).field }
    ensures out_after { out.new ≡ left_index entries.now out.old }
{
    host::indexes::castanwel_index_write(entries, out, size, line, field)
}

#[unsafe(no_mangle)]
pub extern "C" fn castanwel_index_read(
    index: &[u8],
    entries: &mut [u64],
    count: &mut usize,
    line: &mut usize,
    field: &mut usize,
) -> u8
    ensures value { result ≡ (listed_for (read_index index.now) (length entries.old)).no }
    ensures count_after { count.new ≡ set_at (listed_for (read_index index.now) (length entries.old)).no
        (listed_for (read_index index.now) (length entries.old)).count count.old }
    ensures line_after { line.new ≡ (listed_for (read_index index.now) (length entries.old)).line }
    ensures field_after { field.new ≡ (listed_for (read_index index.now) (length entries.old)).field }
    ensures entries_after { entries.new ≡ laid_for (read_index index.now) entries.old }
{
    host::indexes::castanwel_index_read(index, entries, count, line, field)
}

#[unsafe(no_mangle)]
pub extern "C" fn castanwel_index_add(
    index: &mut [u8],
    used: usize,
    number: u64,
    offset: u64,
    size: u64,
    after: &mut usize,
    line: &mut usize,
    field: &mut usize,
) -> u8
    ensures value { result ≡ (added_index index.old used (entry_with number offset size)).no }
    ensures after_after { after.new ≡ set_at (added_index index.old used (entry_with number offset size)).no
        (added_index index.old used (entry_with number offset size)).length after.old }
    ensures line_after { line.new ≡ (added_index index.old used (entry_with number offset size)).line }
    ensures field_after { field.new ≡ (added_index index.old used (entry_with number offset size)).field }
    ensures index_after { index.new ≡ left_added index.old used (entry_with number offset size) }
{
    host::indexes::castanwel_index_add(index, used, number, offset, size, after, line, field)
}

#[unsafe(no_mangle)]
pub extern "C" fn castanwel_index_find(
    index: &[u8],
    number: u64,
    offset: &mut u64,
    size: &mut u64,
    line: &mut usize,
    field: &mut usize,
) -> u8
    ensures value { result ≡ (found_in number (read_index index.now)).no }
    ensures offset_after { offset.new ≡ set_at (found_in number (read_index index.now)).no
        (found_in number (read_index index.now)).offset offset.old }
    ensures size_after { size.new ≡ set_at (found_in number (read_index index.now)).no
        (found_in number (read_index index.now)).length size.old }
    ensures line_after { line.new ≡ (found_in number (read_index index.now)).line }
    ensures field_after { field.new ≡ (found_in number (read_index index.now)).field }
{
    host::indexes::castanwel_index_find(index, number, offset, size, line, field)
}
