// The calls on round files.
ghost use Rattle.std.specs.Prelude.{◌≡◌};
ghost use Rattle.formats.specs.Append.{append, empty_file};
ghost use Rattle.formats.specs.Convert.{convert};
ghost use Rattle.formats.specs.RoundCalls.{check_round, count_rounds, fetch_round, locate_round};
ghost use Rattle.formats.specs.SameCommitment.{same_commitment};

use formats::Compared;
use types::{Counted, Fetched, Part, Round, Written};

// How many rounds a file has; 0 beside the number, 2 to 12, where the sheet or the file is refused.
#[unsafe(no_mangle)]
pub extern "C" fn dimkhoros_count(sheet: &[u8], file: &[u8]) -> Counted
    ensures { result ≡ count_rounds sheet.now file.now }
{
    round_file::count(sheet, file)
}

// The number, 2 to 13, that the round of this number is refused with, or 0.
#[unsafe(no_mangle)]
pub extern "C" fn dimkhoros_check(sheet: &[u8], file: &[u8], number: usize) -> u32
    ensures { result ≡ check_round sheet.now file.now number }
{
    round_file::check(sheet, file, number)
}

// Where the round of this number stands in the file, 0 and 0 where it is refused; `dimkhoros_check` gives the refusal.
#[unsafe(no_mangle)]
pub extern "C" fn dimkhoros_part(sheet: &[u8], file: &[u8], number: usize) -> Part
    ensures { result ≡ locate_round sheet.now file.now number }
{
    round_file::locate(sheet, file, number)
}

// The values of the round of this number, which are not tested; zeros beside the number, 2 to 13, where it is refused.
#[unsafe(no_mangle)]
pub extern "C" fn dimkhoros_read(sheet: &[u8], file: &[u8], number: usize) -> Fetched
    ensures { result ≡ fetch_round sheet.now file.now number }
{
    round_file::read(sheet, file, number)
}

// Whether the rounds of these two numbers have the same commitment, 1 or 0; 0 beside the number, 2 to 13, where either is
// refused.
#[unsafe(no_mangle)]
pub extern "C" fn dimkhoros_same_commitment(
    sheet: &[u8],
    file: &[u8],
    first: usize,
    second: usize,
) -> Compared
    ensures { result ≡ same_commitment sheet.now file.now first second }
{
    round_words::same_commitment(sheet, file, first, second)
}

// Puts the file of no rounds in a version at the start of buffer and answers its length. No byte behind it is changed. A
// version other than 1 and 2 gets 12, a buffer that is shorter 22, and buffer keeps its bytes.
#[unsafe(no_mangle)]
pub extern "C" fn dimkhoros_empty(version: u32, buffer: &mut [u8]) -> Written
    ensures answer { result ≡ (empty_file version buffer.old).answer }
    ensures bytes { buffer.new ≡ (empty_file version buffer.old).buffer }
{
    round_writer::empty(version, buffer)
}

// Writes round straight behind the first used bytes of buffer, which are a round file, in their version, raises its count by
// one and answers the count of bytes in use. Where it is refused, with 2 to 12, 15 or 22, buffer keeps its bytes.
#[unsafe(no_mangle)]
pub extern "C" fn dimkhoros_append(
    sheet: &[u8],
    buffer: &mut [u8],
    used: usize,
    round: Round,
) -> Written
    ensures answer { result ≡ (append sheet.now buffer.old used round).answer }
    ensures bytes { buffer.new ≡ (append sheet.now buffer.old used round).buffer }
{
    round_writer::append(sheet, buffer, used, round)
}

// Puts the rounds of a file in the other version at the start of buffer and answers the length of that file. No byte behind it is
// changed. Where it is refused, with 2 to 12, 15 or 22, buffer keeps its bytes.
#[unsafe(no_mangle)]
pub extern "C" fn dimkhoros_convert(sheet: &[u8], file: &[u8], buffer: &mut [u8]) -> Written
    ensures answer { result ≡ (convert sheet.now file.now buffer.old).answer }
    ensures bytes { buffer.new ≡ (convert sheet.now file.now buffer.old).buffer }
{
    converter::convert(sheet, file, buffer)
}
