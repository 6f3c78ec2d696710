// The places of a pattern file's fields, and the test of a file (02, card 2, refusal 23).
ghost use Rattle.std.specs.Prelude.{◌+◌, ◌≤◌, false, ◌≡◌, length};
ghost use Rattle.patterns.specs.PatternFile.{bad_pattern_file, pattern_count, pattern_start};
ghost use Rattle.pattern_file.specs.Walk.{bad_patterns, sizes_at, wrong_sizes};

use fields::{has_mark, read_u8, read_u16};

// The three bytes that a pattern file begins with.
pub const MARK: [u8; 3] = *b"PAT";

// How many bytes stand before the patterns: the mark, the version and the count.
pub const START: usize = 6;

// How many patterns a file can have.
pub const MOST_PATTERNS: u32 = 32;

// How many rows, columns, public values and digits a pattern has.
#[derive(Clone, Copy)]
pub struct Sizes {
    pub rows: u32,
    pub columns: u32,
    pub values: u32,
    pub digits: usize,
}

// The sizes of the pattern that begins at index at of a file.
pub fn sizes_at(file: &[u8], at: usize) -> Sizes
    requires within { at + 3 ≤ length file.now }
    ensures { result ≡ sizes_at file.now at }
{
    let rows = read_u8(file, at);
    let columns = read_u8(file, at + 1);
    let values = read_u8(file, at + 2);
    Sizes {
        rows,
        columns,
        values,
        digits: (rows * columns) as usize,
    }
}

// Whether rows, columns or number of public values lie outside 1 to 8.
fn wrong_sizes(p: Sizes) -> bool
    ensures { result ≡ wrong_sizes p }
{
    if p.rows < 1 {
        return true;
    }
    if p.rows > 8 {
        return true;
    }
    if p.columns < 1 {
        return true;
    }
    if p.columns > 8 {
        return true;
    }
    if p.values < 1 {
        return true;
    }
    p.values > 8
}

// Whether one of so many patterns has a wrong size, or the last of them does not end where the file does. Each is read only where
// the file reaches that far.
fn bad_patterns(file: &[u8], count: usize) -> bool
    requires long { 6 ≤ length file.now }
    ensures { result ≡ bad_patterns file.now count }
{
    let mut at: usize = START;
    for _ in 0..count {
        if file.len() - at < 3 {
            return true;
        }
        let p = sizes_at(file, at);
        if wrong_sizes(p) {
            return true;
        }
        if file.len() - at - 3 < p.digits {
            return true;
        }
        at += 3 + p.digits;
    }
    file.len() != at
}

// Whether a file is refused with 23.
pub fn bad_file(file: &[u8]) -> bool
    ensures { result ≡ bad_pattern_file file.now }
{
    if file.len() < START {
        return true;
    }
    if !has_mark(file, MARK) {
        return true;
    }
    if read_u16(file, 3) != 1 {
        return true;
    }
    let count = read_u8(file, 5);
    if count < 1 {
        return true;
    }
    if count > MOST_PATTERNS {
        return true;
    }
    bad_patterns(file, count as usize)
}

// Where pattern k of a file begins, the first being pattern 0.
pub fn start_of(file: &[u8], k: usize) -> usize
    requires listed { bad_pattern_file file.now ≡ false }
    requires number { k ≤ pattern_count file.now }
    ensures { result ≡ pattern_start file.now k }
{
    let mut at: usize = START;
    for _ in 0..k {
        let p = sizes_at(file, at);
        at += 3 + p.digits;
    }
    at
}
