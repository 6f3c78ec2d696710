// The text of one line. Each function stores the bytes that have room from an index on, leaves out the others, changes no other byte
// and answers the index after what it stored.
ghost use Rattle.std.specs.Prelude.{◌++◌};
ghost use Rattle.encoding.specs.Placed.{Fitted};
ghost use Rattle.encoding.specs.Text.{ascii};
ghost use Rattle.runs.specs.Marker.{result_line, verdict_line, verdict_text, word_line};

use row_words::write_rows;
use text::{write_decimal, write_numbered, write_word};
use types::Verdict;

// Stores a line of a word and a number at the start.
pub fn write_line(text: &mut [u8], word: &[u8], number: u32) -> usize
    ensures { Fitted text.old 0 (word_line word.now number) text.new result }
{
    let next = write_numbered(text, 0, word, number as u64);
    write_word(text, next, b"\n")
}

// Stores what a verdict's line says after the round's number, with a space before it.
fn write_verdict(text: &mut [u8], at: usize, verdict: Verdict) -> usize
    ensures { Fitted text.old at (ascii " " ++ verdict_text verdict) text.new result }
{
    match verdict {
        Verdict::Accepted => write_word(text, at, b" accepted"),
        Verdict::Rejected(rows) => {
            let next = write_word(text, at, b" rejected");
            write_rows(text, next, rows)
        }
        Verdict::Refused(number) => write_numbered(text, at, b" refused", number as u64),
    }
}

// Stores the line of a round: its number and its verdict.
pub fn write_round(text: &mut [u8], at: usize, number: u32, verdict: Verdict) -> usize
    ensures { Fitted text.old at (verdict_line number verdict) text.new result }
{
    let word = write_decimal(text, at, number as u64);
    let end = write_verdict(text, word, verdict);
    write_word(text, end, b"\n")
}

// Stores the last line: `fail` if the file fails, else `pass`.
pub fn write_result(text: &mut [u8], at: usize, failed: bool) -> usize
    ensures { Fitted text.old at (result_line failed) text.new result }
{
    if failed {
        write_word(text, at, b"fail\n")
    } else {
        write_word(text, at, b"pass\n")
    }
}
