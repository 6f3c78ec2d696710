// The lines of a file's rounds on loaded values.
// That a file is one of the sheet's is a clause and no type: a type would hold sheet and file together for these functions alone.
ghost use Rattle.std.specs.Prelude.{◌<◌, not, ◌||◌, ◌≡◌};
ghost use Rattle.encoding.specs.Placed.{Fitted};
ghost use Rattle.formats.specs.Meaning.{IsRoundFile};
ghost use Rattle.formats.specs.RoundFile.{challenge_width, count_field};
ghost use Rattle.round_layout.specs.Width.{IsWidth};
ghost use Rattle.instance.specs.Values.{values_of};
ghost use Rattle.sigma.specs.Answer.{is_accepted};
ghost use Rattle.round_lines.specs.Lines.{fails_in, lines_in, verdict_in};

use crate::lines::write_round;
use image::verdict;
use instance::Sheet;
use protocol::test_round;
use round_file::round_at;
use round_layout::{file_width, record_start};
use types::Verdict;

// What the lines of a file's rounds leave: the index after them, and whether a round failed.
#[derive(Clone, Copy)]
pub struct Written {
    pub next: usize,
    pub failed: bool,
}

// The verdict on round k of a file whose challenges have width bytes.
pub fn verdict_at(sheet: &Sheet, file: &[u8], width: usize, k: u32) -> Verdict
    requires file { IsRoundFile sheet.now.header file.now }
    requires width { width ≡ challenge_width file.now }
    requires known { IsWidth width }
    requires number { k < count_field file.now }
    ensures { result ≡ verdict_in (values_of sheet.now) file.now k }
{
    let h = sheet.header;
    let start = record_start(h, width, k as usize);
    let round = round_at(h, width, file, start);
    let t = round.commitment;
    let r = round.response;
    match test_round(h, t, round.challenge, r) {
        Ok(()) => verdict(sheet, t, round.challenge, r),
        Err(refusal) => Verdict::Refused(refusal.number()),
    }
}

// Whether a verdict is not accepted, or one before it was not.
fn fails(before: bool, verdict: Verdict) -> bool
    ensures { result ≡ before || not (is_accepted verdict) }
{
    match verdict {
        Verdict::Accepted => before,
        Verdict::Rejected(_) => true,
        Verdict::Refused(_) => true,
    }
}

// Stores a line for each of the count rounds of a file from an index on, as far as there is room; no other byte is changed. Answers
// the index after what it stored, and whether some round is not accepted.
pub fn write_rounds(text: &mut [u8], at: usize, sheet: &Sheet, file: &[u8], count: u32) -> Written
    requires file { IsRoundFile sheet.now.header file.now }
    requires count { count ≡ count_field file.now }
    ensures lines { Fitted text.old at (lines_in (values_of sheet.now) file.now count)
        text.new result.next }
    ensures failed { result.failed ≡ fails_in (values_of sheet.now) file.now count }
{
    let width = file_width(file);
    let mut next = at;
    let mut failed = false;
    for k in 0..count {
        let verdict = verdict_at(sheet, file, width, k);
        next = write_round(text, next, k, verdict);
        failed = fails(failed, verdict);
    }
    Written { next, failed }
}
