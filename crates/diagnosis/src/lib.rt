// The reason why a sheet, a round file or its round 0 is turned down, as the one line that is printed (02, card 1).
#![tactic(auto)]

mod judged; // judged.rt: the line on a round of a file that reads

ghost use Rattle.std.specs.Prelude.{ℕ, ◌≤◌, ◌<◌, List, ◌↔◌, ◌≡◌, length, take};
ghost use Rattle.std.proofs.lemmas.List.Edits.{sets};
ghost use Rattle.encoding.specs.Placed.{Placed};
ghost use Rattle.reasons.specs.Reason.{reason_line, reason_text};

use files::{Counted, ROUNDS, SHEET};
use instance::Sheet;
use judged::write_judged;
use reason_lines::write_refused;
use round_file::check_in;
use spots::{file_spot, sheet_spot};

// As many bytes hold every line: the longest is `rejected` with eight rows, each with two values of ten digits.
pub const LONGEST: usize = 201;

// Stores the line on the bytes at hand of a sheet and a round file that have so many bytes in all, at the start of text, and
// answers its length. The file has under 7 bytes in all exactly where the bytes at hand are.
fn write_reason(
    sheet: &[u8],
    sheet_length: usize,
    file: &[u8],
    file_length: usize,
    text: &mut [u8; LONGEST],
) -> usize
    ensures inside { result ≤ length text.new }
    ensures line { (file_length < 7) ↔ (length file.now < 7) →
        Placed text.old 0 (reason_line sheet.now sheet_length file.now file_length)
        text.new result }
{
    let values = match Sheet::load(sheet) {
        Ok(values) => values,
        Err(refusal) => {
            let spot = sheet_spot(sheet, sheet_length, refusal);
            return write_refused(text, refusal.number(), spot);
        }
    };
    match check_in(values.header, file, 0) {
        Ok(()) => write_judged(text, &values, file),
        Err(refusal) => {
            let number = refusal.number();
            let spot = file_spot(file, file_length, number);
            write_refused(text, number, spot)
        }
    }
}

// Stores the reason on a sheet and a round file at the start of text and answers its length; no byte behind it is changed. It
// is one line: `refused`, the number and the offset of the first value that breaks that rule, or `length` and the length that
// does; `rejected` and each differing row with both its values; or `accepted`.
pub fn reason(sheet: &[u8], file: &[u8], text: &mut [u8; LONGEST]) -> usize
    ensures inside { result ≤ length text.new }
    ensures answer { result ≡ length (reason_text sheet.now file.now) }
    ensures bytes { text.new ≡ sets text.old 0 (reason_text sheet.now file.now) }
{
    write_reason(sheet, sheet.len(), file, file.len(), text)
}

// Stores the reason on two files and answers its length. Of the sheet its first 309 bytes were kept, of the round file its first
// 34,824, or all of a shorter one, and each was counted to its end: it is the reason on the whole files, however long they are.
pub fn reason_files(
    sheet: &Counted<SHEET>,
    rounds: &Counted<ROUNDS>,
    text: &mut [u8; LONGEST],
) -> usize
    ensures inside { result ≤ length text.new }
    ensures room { (length sheet.now.kept.bytes ≡ 309) × (length rounds.now.kept.bytes ≡ 34824) }
    ensures whole { (s f : List ℕ) →
        take sheet.now.kept.count sheet.now.kept.bytes ≡ take (length sheet.now.kept.bytes) s →
        length s ≡ sheet.now.length →
        take rounds.now.kept.count rounds.now.kept.bytes ≡ take (length rounds.now.kept.bytes) f →
        length f ≡ rounds.now.length →
        (result ≡ length (reason_text s f)) × (text.new ≡ sets text.old 0 (reason_text s f)) }
{
    write_reason(
        sheet.as_slice(),
        sheet.length(),
        rounds.as_slice(),
        rounds.length(),
        text,
    )
}
