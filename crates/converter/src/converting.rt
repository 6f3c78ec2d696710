// The converter for a sheet whose fixed fields are loaded (02, card 7; refusals 12, 15 and 22).
// These read fixed fields alone, so they take a `Header` with its bounds, and not a whole `Sheet`.
ghost use Rattle.std.specs.Prelude.{◌≤◌, ◌≡◌};
ghost use Rattle.rules.specs.Call.{answer, number_of};
ghost use Rattle.refusals.specs.Number.{refused_with, written};
ghost use Rattle.formats.specs.Convert.{converting};
ghost use Rattle.formats.specs.Meaning.{IsRoundFile};
ghost use Rattle.formats.specs.RoundFile.{count_field, record_start};
ghost use Rattle.converter.specs.Records.{other_width};

use crate::records::{other_version, wide_record, write_records};
use fields::{read_u16, write_mark, write_u16};
use refusals::Refusal;
use round_layout::{MARK, record_start, test_file, width_of};
use types::Header;

// How many bytes the rounds of a file have in the other version, with the seven before them.
fn other_length(h: Header, file: &[u8]) -> usize
    requires rows { h.rows ≤ 8 }
    requires columns { h.columns ≤ 8 }
    requires file { IsRoundFile h file.now }
    ensures { result ≡ record_start (other_width file.now) h (count_field file.now) }
{
    let width = width_of(other_version(file));
    let count = read_u16(file, 5) as usize;
    record_start(h, width, count)
}

// Tests whether the rounds of a file can be put in the other version in buffer (refusals 12, 15 and 22).
fn test_convert(h: Header, file: &[u8], buffer: &[u8]) -> Result<(), Refusal>
    requires rows { h.rows ≤ 8 }
    requires columns { h.columns ≤ 8 }
    ensures { refused_with result ≡ number_of (converting h file.now buffer.now) }
{
    test_file(h, file)?;
    if wide_record(h, file) {
        return Err(Refusal::Challenge);
    }
    if buffer.len() < other_length(h, file) {
        return Err(Refusal::Buffer);
    }
    Ok(())
}

// Puts the rounds of a file in the other version at the start of buffer and gives the length of that file. No byte behind it is
// changed. Where the call is refused, with 12, 15 or 22, buffer keeps its bytes.
pub fn convert_in(h: Header, file: &[u8], buffer: &mut [u8]) -> Result<usize, Refusal>
    requires rows { h.rows ≤ 8 }
    requires columns { h.columns ≤ 8 }
    ensures answer { written result ≡ (answer (converting h file.now buffer.old)).answer }
    ensures bytes { buffer.new ≡ (answer (converting h file.now buffer.old)).buffer }
{
    test_convert(h, file, buffer)?;
    let length = other_length(h, file);
    let version = other_version(file);
    let count = read_u16(file, 5);
    write_mark(buffer, MARK);
    write_u16(buffer, 3, version);
    write_u16(buffer, 5, count);
    write_records(h, file, buffer);
    Ok(length)
}
