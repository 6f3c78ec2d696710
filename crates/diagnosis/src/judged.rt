// The line on round 0 of a file that reads, on loaded values.
// That a file is one of the sheet's is a clause and no type: a type would hold sheet and file together for these functions alone.
ghost use Rattle.std.specs.Prelude.{◌<◌};
ghost use Rattle.formats.specs.Meaning.{IsRoundFile};
ghost use Rattle.formats.specs.RoundFile.{count_field};
ghost use Rattle.instance.specs.Values.{values_of};
ghost use Rattle.sigma.specs.Image.{image};
ghost use Rattle.sigma.specs.Instance.{table_of};
ghost use Rattle.sigma.specs.Round.{expected_image};
ghost use Rattle.reasons.specs.Lines.{rejected_line};
ghost use Rattle.reason_lines.specs.Short.{ShortLine};
ghost use Rattle.diagnosis.specs.Judged.{judged_line};

use image::{expected_image, image};
use instance::Sheet;
use reason_lines::{write_refused, write_rejected};
use round_file::round_at;
use round_layout::{START, file_width};
use round_lines::verdict_at;
use spots::round_spot;
use text::write_word;
use types::{Round, Verdict};

// Stores the line of a round that is rejected with the rows of a mask, at the start: each row, its value of [r] and its value of
// t z^c.
fn write_sides(text: &mut [u8], sheet: &Sheet, round: Round, mask: u32) -> usize
    ensures { ShortLine text.old
        (rejected_line mask (image (table_of (values_of sheet.now)) round.response)
        (expected_image (values_of sheet.now) round.commitment round.challenge))
        text.new result }
{
    let h = sheet.header;
    let entries = sheet.entries;
    let statement = sheet.statement;
    let response = round.response;
    let commitment = round.commitment;
    let left = image(h, entries, response);
    let right = expected_image(h, statement, commitment, round.challenge);
    write_rejected(text, mask, left, right)
}

// Stores the line on the round that stands first in a file, at the start: `accepted`, the differing rows with both their
// values, or a refusal with the offset of the first value that breaks its rule.
pub fn write_judged(text: &mut [u8], sheet: &Sheet, file: &[u8]) -> usize
    requires file { IsRoundFile sheet.now.header file.now }
    requires some { 0 < count_field file.now }
    ensures { ShortLine text.old (judged_line (values_of sheet.now) file.now)
        text.new result }
{
    let h = sheet.header;
    let width = file_width(file);
    match verdict_at(sheet, file, width, 0) {
        Verdict::Accepted => write_word(text, 0, b"accepted\n"),
        Verdict::Rejected(mask) => write_sides(text, sheet, round_at(h, width, file, START), mask),
        Verdict::Refused(number) => write_refused(text, number, round_spot(h, file, number)),
    }
}
