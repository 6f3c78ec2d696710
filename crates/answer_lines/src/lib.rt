// The lines of the game (02, card 12) on loaded values. Each function stores the bytes that have room, leaves out the others, changes
// no other byte and answers the index after what it stored.
// Arrays have eight places whatever n is: memory is fixed, and the structs that C reads have them so.
#![tactic(auto)]

ghost use Rattle.std.specs.Prelude.{◌≤◌, ◌<◌, false, ◌≡◌};
ghost use mathlib.Core.List.{flatten, map};
ghost use Rattle.lists.specs.Places.{places};
ghost use Rattle.encoding.specs.Placed.{Fitted};
ghost use Rattle.runs.specs.Marker.{row_word};
ghost use Rattle.sigma.specs.Round.{bad_commitment};
ghost use Rattle.games.specs.Text.{answer_lines, candidates};
ghost use Rattle.instance.specs.Values.{values_of};
ghost use Rattle.solver.specs.Small.{Small};
ghost use Rattle.answer_lines.specs.Lines.{line_at};

use instance::Sheet;
use solver::{first_answer, response_at, table_of};
use text::{write_decimal, write_numbered, write_word};
use types::Header;

// Stores a number with a space before it.
fn write_slot(text: &mut [u8], at: usize, value: u32) -> usize
    ensures { Fitted text.old at (row_word value) text.new result }
{
    write_numbered(text, at, b"", value as u64)
}

// Stores the first n of eight numbers, each with a space before it.
fn write_slots(text: &mut [u8], at: usize, values: [u32; 8], n: usize) -> usize
    requires count { n ≤ 8 }
    ensures { Fitted text.old at (flatten (map row_word (places n values))) text.new result }
{
    let mut next = at;
    for value in &values[..n] {
        next = write_slot(text, next, *value);
    }
    next
}

// Stores the line of a challenge that candidate k answers, the challenge and the slots of the candidate.
fn write_answer(text: &mut [u8], at: usize, h: Header, c: u32, k: u32) -> usize
    requires small { Small h }
    requires found { k < candidates h }
    ensures { Fitted text.old at (line_at h c k) text.new result }
{
    let response = response_at(h, k);
    let next = write_decimal(text, at, c as u64);
    let end = write_slots(text, next, response, h.columns as usize);
    write_word(text, end, b"\n")
}

// Stores the text on a commitment at the start: a line for each challenge that has an accepting response, with the smallest one,
// or `none`. The table of the sheet is made once.
pub fn write_answers(text: &mut [u8], sheet: &Sheet, t: [u32; 8]) -> usize
    requires small { Small sheet.now.header }
    requires elements { bad_commitment (values_of sheet.now) t ≡ false }
    ensures { Fitted text.old 0 (answer_lines (values_of sheet.now) t) text.new result }
{
    let h = sheet.header;
    let statement = sheet.statement;
    let mut table = [0u32; 32768];
    table_of(h, sheet.entries, &mut table);
    let mut next = 0;
    for c in 0..h.challenges {
        if let Some(k) = first_answer(h, statement, t, c, &table) {
            next = write_answer(text, next, h, c, k);
        }
    }
    if next == 0 {
        return write_word(text, 0, b"none\n");
    }
    next
}
