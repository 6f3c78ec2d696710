// The marker's text on a sheet, a round file and a level (01, "The marker's lines"; 02, card 3).
#![tactic(auto)]

mod level; // level.rt: the level, and whether it is reached

ghost use Rattle.std.specs.Prelude.{ℕ, ◌≤◌, ◌≡◌, List, length, take};
ghost use Rattle.std.proofs.lemmas.List.Edits.{sets};
ghost use Rattle.runs.specs.Marker.{marker_text};

use files::{Kept, LEVEL, ROUNDS, SHEET};
use instance::Sheet;
use level::{fails_at, level_of};
use round_file::count_in;
use round_lines::{write_line, write_result, write_rounds};

// As many bytes hold every text: `rounds 512`, 512 lines of at most 29 bytes, and `fail`.
pub const LONGEST: usize = 14864;

// Stores the marker's text at the start of text and answers its length; no byte behind it is changed. A refused sheet gives
// the one line `sheet N`, a refused file `file N` and a refused level `level N`; else the text has the count, a line for each
// round, and `pass` or `fail`.
pub fn mark(sheet: &[u8], file: &[u8], level: &[u8], text: &mut [u8; LONGEST]) -> usize
    ensures inside { result ≤ length text.new }
    ensures answer { result ≡ length (marker_text sheet.now file.now level.now) }
    ensures bytes { text.new
        ≡ sets text.old 0 (marker_text sheet.now file.now level.now) }
{
    let values = match Sheet::load(sheet) {
        Ok(values) => values,
        Err(refusal) => return write_line(text, b"sheet", refusal.number()),
    };
    let h = values.header;
    let count = match count_in(h, file) {
        Ok(count) => count,
        Err(refusal) => return write_line(text, b"file", refusal.number()),
    };
    let bits = match level_of(level) {
        Ok(bits) => bits,
        Err(refusal) => return write_line(text, b"level", refusal.number()),
    };
    let next = write_line(text, b"rounds", count);
    let written = write_rounds(text, next, &values, file, count);
    let failed = fails_at(written.failed, h.challenges, count, bits);
    write_result(text, written.next, failed)
}

// Stores the marker's text on three files and answers its length. Of each file its first 309, 34,824 or 2 bytes were kept, or all
// of a shorter one, and the text is that on the whole files, however long they are.
pub fn mark_files(
    sheet: &Kept<SHEET>,
    rounds: &Kept<ROUNDS>,
    level: &Kept<LEVEL>,
    text: &mut [u8; LONGEST],
) -> usize
    ensures inside { result ≤ length text.new }
    ensures room { (length sheet.now.bytes ≡ 309) × (length rounds.now.bytes ≡ 34824) × (length level.now.bytes ≡ 2) }
    ensures whole { (s f w : List ℕ) →
        take sheet.now.count sheet.now.bytes ≡ take (length sheet.now.bytes) s →
        take rounds.now.count rounds.now.bytes ≡ take (length rounds.now.bytes) f →
        take level.now.count level.now.bytes ≡ take (length level.now.bytes) w →
        (result ≡ length (marker_text s f w)) × (text.new ≡ sets text.old 0 (marker_text s f w)) }
{
    mark(sheet.as_slice(), rounds.as_slice(), level.as_slice(), text)
}
