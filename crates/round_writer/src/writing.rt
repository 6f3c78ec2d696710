// Writing a round file: the call that makes one of no rounds, and the record writer for a sheet whose fixed fields are loaded
// (01, "A round"; 02, card 7; refusals 12, 15 and 22).
// These read fixed fields alone, so they take a `Header` with its bounds, and not a whole `Sheet`.
// Versions and widths are numbers, as in round_layout.
ghost use Rattle.std.specs.Prelude.{◌≤◌, ◌≡◌};
ghost use Rattle.rules.specs.Call.{answer, number_of};
ghost use Rattle.refusals.specs.Number.{refused_with, written};
ghost use Rattle.formats.specs.Append.{appending, empty_file};

use crate::record::{wide_challenge, write_record};
use fields::{read_u16, write_mark, write_u16};
use refusals::{Refusal, written};
use round_layout::{
    MARK, MOST_ROUNDS, START, file_width, record_length, test_file, unknown_version,
};
use types::{Header, Round, Written};

// Puts the file of no rounds in a version at the start of buffer, and gives its length. No byte behind it is changed. Where it is
// refused, with 12 or 22, buffer keeps its bytes.
fn start_file(version: u32, buffer: &mut [u8]) -> Result<usize, Refusal>
    ensures answer { written result ≡ (empty_file version buffer.old).answer }
    ensures bytes { buffer.new ≡ (empty_file version buffer.old).buffer }
{
    if unknown_version(version) {
        return Err(Refusal::File);
    }
    if buffer.len() < START {
        return Err(Refusal::Buffer);
    }
    write_mark(buffer, MARK);
    write_u16(buffer, 3, version);
    write_u16(buffer, 5, 0);
    Ok(START)
}

// Puts the file of no rounds in a version at the start of buffer and answers its length. No byte behind it is changed. A
// version other than 1 and 2 gets 12, a buffer that is shorter 22, and buffer keeps its bytes.
pub fn empty(version: u32, buffer: &mut [u8]) -> Written
    ensures answer { result ≡ (empty_file version buffer.old).answer }
    ensures bytes { buffer.new ≡ (empty_file version buffer.old).buffer }
{
    written(start_file(version, buffer))
}

// Tests whether the record writer can write round behind the first used bytes of buffer (refusals 12, 15 and 22).
fn test_append(h: Header, buffer: &[u8], used: usize, round: Round) -> Result<(), Refusal>
    requires rows { h.rows ≤ 8 }
    requires columns { h.columns ≤ 8 }
    ensures { refused_with result ≡ number_of (appending h buffer.now used round) }
{
    if buffer.len() < used {
        return Err(Refusal::File);
    }
    let file = &buffer[..used];
    test_file(h, file)?;
    if read_u16(file, 5) >= MOST_ROUNDS {
        return Err(Refusal::File);
    }
    if wide_challenge(read_u16(file, 3), round.challenge) {
        return Err(Refusal::Challenge);
    }
    if buffer.len() - used < record_length(h, file_width(file)) {
        return Err(Refusal::Buffer);
    }
    Ok(())
}

// Writes round straight behind the first used bytes of buffer, which are a round file, in their version, raises its count by
// one and gives the count of bytes in use. Where it is refused, with 12, 15 or 22, buffer keeps its bytes.
pub fn append_in(h: Header, buffer: &mut [u8], used: usize, round: Round) -> Result<usize, Refusal>
    requires rows { h.rows ≤ 8 }
    requires columns { h.columns ≤ 8 }
    ensures answer { written result ≡ (answer (appending h buffer.old used round)).answer }
    ensures bytes { buffer.new ≡ (answer (appending h buffer.old used round)).buffer }
{
    test_append(h, buffer, used, round)?;
    let count = read_u16(buffer, 5);
    let width = file_width(buffer);
    let length = used + record_length(h, width);
    write_record(&mut buffer[used..], h, width, round);
    write_u16(buffer, 5, count + 1);
    Ok(length)
}
