// The index beside a log as Rust or C keeps it: its bytes, and its entries as numbers of 64 bits, three an entry. Each
// function returns the number of its refusal, or 0, and sets `line` and `field` to those of the refusal, which are 0.
ghost use Rattle.std.specs.Prelude.{◌≡◌, length};
ghost use Rattle.index.specs.Index.{read_index};
ghost use Rattle.index.specs.Answers.{written_index, left_index, listed_for, laid_for, added_index, left_added, found_in};
ghost use Rattle.host.specs.Answer.{set_at};
ghost use Rattle.host.specs.Index.{entry_with};

use crate::answers;
use index::Entry;

// Writes the index of `entries` into `out` and sets `size` to its length. Refused: 5 where the numbers are not threes or
// an entry is out of range or order; then 8. A refusal leaves `out` and `size`.
pub fn castanwel_index_write(
    entries: &[u64],
    out: &mut [u8],
    size: &mut usize,
    line: &mut usize,
    field: &mut usize,
) -> u8
    ensures value { result ≡ (written_index entries.now (length out.old)).no }
    ensures size_after { size.new ≡ set_at (written_index entries.now (length out.old)).no
        (written_index entries.now (length out.old)).length size.old }
    ensures line_after { line.new ≡ (written_index entries.now (length out.old)).line }
    ensures field_after { field.new ≡ (written_index entries.now (length out.old)).field }
    ensures out_after { out.new ≡ left_index entries.now out.old }
{
    let written = index::writing::write(entries, out);
    *line = written.line;
    *field = written.field;
    *size = answers::kept(written.no, written.length, *size);
    written.no
}

// Reads `index` to numbers at the start of `entries`, and sets `count` to how many entries there are. Refused: 11 for
// bytes that are no index; then 8. A refusal leaves `entries` and `count`.
pub fn castanwel_index_read(
    index: &[u8],
    entries: &mut [u64],
    count: &mut usize,
    line: &mut usize,
    field: &mut usize,
) -> u8
    ensures value { result ≡ (listed_for (read_index index.now) (length entries.old)).no }
    ensures count_after { count.new ≡ set_at (listed_for (read_index index.now) (length entries.old)).no
        (listed_for (read_index index.now) (length entries.old)).count count.old }
    ensures line_after { line.new ≡ (listed_for (read_index index.now) (length entries.old)).line }
    ensures field_after { field.new ≡ (listed_for (read_index index.now) (length entries.old)).field }
    ensures entries_after { entries.new ≡ laid_for (read_index index.now) entries.old }
{
    let listed = index::reading::read(index, entries);
    *line = listed.line;
    *field = listed.field;
    *count = answers::kept(listed.no, listed.count, *count);
    listed.no
}

// Adds the entry of three numbers at the end of the index in the first `used` bytes of `index`, and sets `after` to the
// length of the index then. Refused: 11 where these bytes are no index or `used` passes the end; 5 where the entry does
// not fit behind the last; 8 where there is no room for it. A refusal leaves `index` and `after`.
pub fn castanwel_index_add(
    index: &mut [u8],
    used: usize,
    number: u64,
    offset: u64,
    size: u64,
    after: &mut usize,
    line: &mut usize,
    field: &mut usize,
) -> u8
    ensures value { result ≡ (added_index index.old used (entry_with number offset size)).no }
    ensures after_after { after.new ≡ set_at (added_index index.old used (entry_with number offset size)).no
        (added_index index.old used (entry_with number offset size)).length after.old }
    ensures line_after { line.new ≡ (added_index index.old used (entry_with number offset size)).line }
    ensures field_after { field.new ≡ (added_index index.old used (entry_with number offset size)).field }
    ensures index_after { index.new ≡ left_added index.old used (entry_with number offset size) }
{
    let e = Entry {
        number,
        offset,
        length: size,
    };
    let written = index::writing::add(index, used, e);
    *line = written.line;
    *field = written.field;
    *after = answers::kept(written.no, written.length, *after);
    written.no
}

// Finds the exhibit `number` in `index`, and sets `offset` and `size` to those of its line. Refused: 11 for bytes that are
// no index, whatever the number is; then 12. A refusal leaves `offset` and `size`.
pub fn castanwel_index_find(
    index: &[u8],
    number: u64,
    offset: &mut u64,
    size: &mut u64,
    line: &mut usize,
    field: &mut usize,
) -> u8
    ensures value { result ≡ (found_in number (read_index index.now)).no }
    ensures offset_after { offset.new ≡ set_at (found_in number (read_index index.now)).no
        (found_in number (read_index index.now)).offset offset.old }
    ensures size_after { size.new ≡ set_at (found_in number (read_index index.now)).no
        (found_in number (read_index index.now)).length size.old }
    ensures line_after { line.new ≡ (found_in number (read_index index.now)).line }
    ensures field_after { field.new ≡ (found_in number (read_index index.now)).field }
{
    let found = index::reading::find(index, number);
    *line = found.line;
    *field = found.field;
    *offset = answers::kept(found.no, found.offset, *offset);
    *size = answers::kept(found.no, found.length, *size);
    found.no
}
