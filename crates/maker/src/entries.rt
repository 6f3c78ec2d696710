// The entries that a pattern's digits stand for over the public values (01, "The patterns").
ghost use Rattle.std.specs.Prelude.{◌≤◌, ◌<◌, ◌≡◌, length};
ghost use Rattle.patterns.specs.Pattern.{entry_of, pattern_entries};
ghost use Rattle.patterns.specs.PatternFile.{pattern_from};
ghost use Rattle.maker.specs.Rows.{Stands, pattern_row};

use fields::read_u8;
use pattern_file::sizes_at;

// The entry that a digit stands for: 1 for 0, else the public value of that position, from 1.
fn entry_of(values: &[u32], digit: u32) -> u32
    requires { digit ≤ length values.now }
    ensures { result ≡ entry_of values.now digit }
{
    if digit == 0 {
        return 1;
    }
    let position = digit as usize;
    values[position - 1]
}

// Row i of the entries, over the public values, of the pattern that begins at index at of a file and has so many columns, with 0
// in the places beyond them.
fn row_of(file: &[u8], at: usize, columns: usize, values: &[u32], i: usize) -> [u32; 8]
    requires named { Stands file.now at values.now }
    requires columns { columns ≡ (pattern_from file.now at).columns }
    requires row { i < (pattern_from file.now at).rows }
    ensures { result ≡ pattern_row (pattern_from file.now at) values.now i }
{
    let start = at + 3 + columns * i;
    let mut row = [0u32; 8];
    for j in 0..columns {
        row[j] = entry_of(values, read_u8(file, start + j));
    }
    row
}

// The entries, over the public values, of the pattern that begins at index at of a file.
pub fn entries_of(file: &[u8], at: usize, values: &[u32]) -> [[u32; 8]; 8]
    requires { Stands file.now at values.now }
    ensures { result ≡ pattern_entries (pattern_from file.now at) values.now }
{
    let p = sizes_at(file, at);
    let rows = p.rows as usize;
    let columns = p.columns as usize;
    let mut entries = [[0u32; 8]; 8];
    for i in 0..rows {
        entries[i] = row_of(file, at, columns, values, i);
    }
    entries
}
