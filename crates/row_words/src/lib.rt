// The rows of a mask as text (02, card 8): row i if bit i is set. Each function stores the bytes that have room from an index on,
// leaves out the others, changes no other byte and answers the index after what it stored.
#![tactic(auto)]

ghost use Rattle.std.specs.Prelude.{◌%◌, cond, eqb};
ghost use mathlib.Core.List.{[], flatten, map};
ghost use Rattle.encoding.specs.Placed.{Fitted};
ghost use Rattle.runs.specs.Marker.{row_word};
ghost use Rattle.sigma.specs.Answer.{rows_of};

use text::write_numbered;

// Stores a row with a space before it if the lowest bit of rest is set, else nothing.
fn write_row(text: &mut [u8], at: usize, row: u32, rest: u32) -> usize
    ensures { Fitted text.old at (cond (eqb (rest % 2) 1) (row_word row) []) text.new result }
{
    if rest % 2 != 1 {
        return at;
    }
    write_numbered(text, at, b"", row as u64)
}

// Stores the rows of a mask, rising, each with a space before it.
pub fn write_rows(text: &mut [u8], at: usize, mask: u32) -> usize
    ensures { Fitted text.old at (flatten (map row_word (rows_of mask))) text.new result }
{
    let mut next = at;
    let mut rest = mask;
    for row in 0..8u32 {
        next = write_row(text, next, row, rest);
        rest = rest / 2;
    }
    next
}
