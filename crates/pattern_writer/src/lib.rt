// The pattern file that is shipped (02, card 2), written from 01's patterns 1 to 5 as a constant table.
// C reads the answers, so a refusal stands in them as a number.
#![tactic(auto)]

ghost use Rattle.std.specs.Prelude.{◌*◌, ◌≤◌, ◌<◌, ◌≡◌, length};
ghost use Rattle.encoding.specs.Placed.{Fitted};
ghost use Rattle.refusals.specs.Number.{written};
ghost use Rattle.patterns.specs.Table.{write_shipped};
ghost use Rattle.pattern_writer.specs.Stored.{stored_pattern};

use fields::{write_mark, write_u8, write_u16};
use pattern_file::{MARK, START};
use refusals::{Refusal, written};
use text::write_word;
use types::Written;

// A row of the table: rows, columns, how many public values, and the digits, row by row.
#[derive(Clone, Copy)]
pub struct Pattern {
    rows: u8,
    columns: u8,
    values: u8,
    digits: [u8; 6],
}

// The patterns 1 to 5: Schnorr, Okamoto, equality, Diffie-Hellman and the product.
const PATTERNS: [Pattern; 5] = [
    Pattern {
        rows: 1,
        columns: 1,
        values: 1,
        digits: [1, 0, 0, 0, 0, 0],
    },
    Pattern {
        rows: 1,
        columns: 2,
        values: 2,
        digits: [1, 2, 0, 0, 0, 0],
    },
    Pattern {
        rows: 2,
        columns: 1,
        values: 2,
        digits: [1, 2, 0, 0, 0, 0],
    },
    Pattern {
        rows: 2,
        columns: 1,
        values: 2,
        digits: [1, 2, 0, 0, 0, 0],
    },
    Pattern {
        rows: 2,
        columns: 3,
        values: 3,
        digits: [1, 2, 0, 3, 0, 2],
    },
];

// How many bytes the shipped file has.
const LENGTH: usize = 34;

// Stores the bytes of a pattern of the table that have room from index at on, changes no other byte and answers the index after what
// it stored.
fn write_pattern(buffer: &mut [u8], at: usize, p: Pattern) -> usize
    requires held { (p.rows * p.columns ≤ 6) × (length p.digits ≡ 6) }
    ensures { Fitted buffer.old at (stored_pattern p) buffer.new result }
{
    let sizes = [p.rows, p.columns, p.values];
    let digits = p.digits;
    let count = p.rows as usize * p.columns as usize;
    let start = write_word(buffer, at, &sizes);
    write_word(buffer, start, &digits[0..count])
}

// Puts the shipped file at the start of buffer and gives its length, or why it is refused.
fn try_write_shipped(buffer: &mut [u8]) -> Result<usize, Refusal>
    ensures answer { written result ≡ (write_shipped buffer.old).answer }
    ensures bytes { buffer.new ≡ (write_shipped buffer.old).buffer }
{
    if buffer.len() < LENGTH {
        return Err(Refusal::Buffer);
    }
    write_mark(buffer, MARK);
    write_u16(buffer, 3, 1);
    write_u8(buffer, 5, 5);
    let mut at: usize = START;
    for p in &PATTERNS {
        at = write_pattern(buffer, at, *p);
    }
    Ok(at)
}

// Puts the shipped file at the start of buffer and answers its length. No byte behind it is changed, and a buffer that is shorter,
// 22, keeps its bytes.
pub fn write_shipped(buffer: &mut [u8]) -> Written
    ensures answer { result ≡ (write_shipped buffer.old).answer }
    ensures bytes { buffer.new ≡ (write_shipped buffer.old).buffer }
{
    written(try_write_shipped(buffer))
}
