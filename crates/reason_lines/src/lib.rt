// The text of the reason's line (02, cards 1 and 8). Each function stores the bytes that have room, leaves out the others, changes no
// other byte and answers the index after what it stored.
#![tactic(auto)]

ghost use Rattle.std.specs.Prelude.{◌%◌, ◌≤◌, ◌<◌, cond, eqb, length};
ghost use mathlib.Core.List.{[], ◌++◌, flatten, map};
ghost use Rattle.encoding.specs.Placed.{Fitted};
ghost use Rattle.encoding.specs.Text.{ascii, decimal};
ghost use Rattle.reasons.specs.Lines.{refused_line, rejected_line};
ghost use Rattle.reasons.specs.Reason.{row_text, spot_text};
ghost use Rattle.sigma.specs.Answer.{rows_of};
ghost use Rattle.reason_lines.specs.Short.{ShortLine};

use reasons::Spot;
use text::{write_decimal, write_numbered, write_word};

// Stores a spot: an offset, or the word `length` and a length, of at most twenty digits.
fn write_spot(text: &mut [u8], at: usize, spot: Spot) -> usize
    ensures fitted { Fitted text.old at (spot_text spot) text.new result }
    ensures short { length (spot_text spot) ≤ 27 }
{
    match spot {
        Spot::At(offset) => write_decimal(text, at, offset as u64),
        Spot::Length(found) => write_numbered(text, at, b"length", found as u64),
    }
}

// Stores the line of a refusal at the start.
pub fn write_refused(text: &mut [u8], number: u32, spot: Spot) -> usize
    ensures { ShortLine text.old (refused_line number spot) text.new result }
{
    let space = write_numbered(text, 0, b"refused", number as u64);
    let place = write_word(text, space, b" ");
    let end = write_spot(text, place, spot);
    write_word(text, end, b"\n")
}

// Stores a row and the values of its two sides, each with a space before it.
fn write_sides(text: &mut [u8], at: usize, row: u32, left: u32, right: u32) -> usize
    ensures { Fitted text.old at
        (ascii " " ++ decimal row ++ ascii " " ++ decimal left ++ ascii " " ++ decimal right) text.new result }
{
    let first = write_numbered(text, at, b"", row as u64);
    let second = write_numbered(text, first, b"", left as u64);
    write_numbered(text, second, b"", right as u64)
}

// Stores a row and the values of its two sides if the lowest bit of rest is set, else nothing.
fn write_row(
    text: &mut [u8],
    at: usize,
    row: usize,
    rest: u32,
    left: [u32; 8],
    right: [u32; 8],
) -> usize
    requires row { row < 8 }
    ensures { Fitted text.old at (cond (eqb (rest % 2) 1) (row_text left right row) [])
        text.new result }
{
    if rest % 2 != 1 {
        return at;
    }
    write_sides(text, at, row as u32, left[row], right[row])
}

// Stores the rows of a mask, rising, each with the values of its two sides.
fn write_rows(text: &mut [u8], at: usize, mask: u32, left: [u32; 8], right: [u32; 8]) -> usize
    ensures { Fitted text.old at (flatten (map (row_text left right) (rows_of mask))) text.new result }
{
    let mut next = at;
    let mut rest = mask;
    for row in 0..8usize {
        next = write_row(text, next, row, rest, left, right);
        rest = rest / 2;
    }
    next
}

// Stores the line of a rejected round at the start: each row of a mask with the values of its two sides.
pub fn write_rejected(text: &mut [u8], mask: u32, left: [u32; 8], right: [u32; 8]) -> usize
    ensures { ShortLine text.old (rejected_line mask left right) text.new result }
{
    let next = write_word(text, 0, b"rejected");
    let end = write_rows(text, next, mask, left, right);
    write_word(text, end, b"\n")
}
