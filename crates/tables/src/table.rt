// A sheet's entries in the two forms in which they cross: eight rows of eight, and 64 numbers, row by row.
// C reads the answers, so a refusal stands in them as a number.
ghost use Rattle.std.specs.Prelude.{◌<◌, ◌≡◌};
ghost use Rattle.formats.specs.Load.{load};
ghost use Rattle.tables.specs.Flat.{flat, flat_unless_refused, square_row, square};

use instance::Sheet;

// The 64 numbers of eight rows of eight, row by row.
fn flat(rows: [[u32; 8]; 8]) -> [u32; 64]
    ensures { result ≡ flat rows }
{
    let mut numbers = [0u32; 64];
    // By index, not by `as_flattened`: columns_for_rows.edit exchanges rows and columns here and in `flat_at`.
    for k in 0..64 {
        let i = k / 8;
        let j = k % 8;
        numbers[k] = rows[i][j];
    }
    numbers
}

// Puts a sheet's entries into numbers, row by row, and answers 0. The number of a sheet that is refused, 2 to 11, is the answer,
// and numbers keeps what it holds.
pub fn store_entries(sheet: &[u8], numbers: &mut [u32; 64]) -> u32
    ensures answer { result ≡ (load sheet.now).refusal }
    ensures numbers { numbers.new ≡ flat_unless_refused sheet.now numbers.old }
{
    match Sheet::load(sheet) {
        Ok(values) => {
            *numbers = flat(values.entries);
            0
        }
        Err(refusal) => refusal.number(),
    }
}

// Row i of 64 numbers that stand row by row.
fn row(entries: &[u32; 64], i: usize) -> [u32; 8]
    requires { i < 8 }
    ensures { result ≡ square_row entries.now i }
{
    let mut numbers = [0u32; 8];
    // By index, not by a copy: columns_for_rows.edit exchanges rows and columns here and in `square_at`.
    for j in 0..8 {
        numbers[j] = entries[8 * i + j];
    }
    numbers
}

// The eight rows of eight of 64 numbers that stand row by row.
pub fn square(entries: &[u32; 64]) -> [[u32; 8]; 8]
    ensures { result ≡ square entries.now }
{
    let mut rows = [[0u32; 8]; 8];
    for i in 0..8 {
        rows[i] = row(entries, i);
    }
    rows
}
