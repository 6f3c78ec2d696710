// The reason.
ghost use Rattle.std.specs.Prelude.{◌≡◌, length};
ghost use Rattle.std.proofs.lemmas.List.Edits.{sets};
ghost use Rattle.reasons.specs.Reason.{reason_text};

use diagnosis::LONGEST;

// Stores the reason on a sheet and a round file at the start of text and answers its length; no byte behind it is changed. It
// is one line: `refused`, the number and the offset of the first value that breaks that rule, or `length` and the length that
// does; `rejected`, and each differing row of round 0 with both its values; or `accepted`.
#[unsafe(no_mangle)]
pub extern "C" fn dimkhoros_reason(sheet: &[u8], file: &[u8], text: &mut [u8; LONGEST]) -> usize
    ensures answer { result ≡ length (reason_text sheet.now file.now) }
    ensures bytes { text.new ≡ sets text.old 0 (reason_text sheet.now file.now) }
{
    diagnosis::reason(sheet, file, text)
}
