// The layout of a round file (01, "A round"; 02, card 7): its versions and the widths of their challenges, the places of its
// records, and the test of a file (refusal 12).
// The bounds of fixed fields are clauses and no type, since a `Sheet` would ask more of callers.
#![tactic(auto)]

ghost use Rattle.std.specs.Prelude.{◌≤◌, ◌≡◌, length};
ghost use Rattle.rules.specs.Call.{number_of};
ghost use Rattle.refusals.specs.Number.{refused_with};
ghost use Rattle.formats.specs.RoundFile.{challenge_width, record_length, record_start, unknown_version, width_of};
ghost use Rattle.formats.specs.RoundCalls.{counting};
ghost use Rattle.round_layout.specs.Width.{IsWidth};

use fields::{has_mark, read_u16};
use refusals::Refusal;
use types::Header;

// The three bytes that a round file begins with.
pub const MARK: [u8; 3] = *b"RND";

// How many bytes stand before the records: the mark, the version and the count.
pub const START: usize = 7;

// How many rounds a file can have.
pub const MOST_ROUNDS: u32 = 512;

// A version and a width are numbers and no enum of two: `unknown_version` and `width_of` take any number, and `record_length` and
// `record_start` any width up to 4 (docs/promises/inner.md).

// Whether a version is other than 1 and 2.
pub fn unknown_version(version: u32) -> bool
    ensures { result ≡ unknown_version version }
{
    version != 1 && version != 2
}

// How many bytes a challenge has in a file of a version: 2 in version 2, else 4.
pub fn width_of(version: u32) -> usize
    ensures value { result ≡ width_of version }
    ensures small { result ≤ 4 }
    ensures known { IsWidth result }
{
    if version == 2 { 2 } else { 4 }
}

// How many bytes each challenge of a file has.
pub fn file_width(file: &[u8]) -> usize
    requires version { 5 ≤ length file.now }
    ensures value { result ≡ challenge_width file.now }
    ensures small { result ≤ 4 }
    ensures known { IsWidth result }
{
    width_of(read_u16(file, 3))
}

// How many bytes a record has whose challenge has width bytes.
pub fn record_length(h: Header, width: usize) -> usize
    requires rows { h.rows ≤ 8 }
    requires columns { h.columns ≤ 8 }
    requires width { width ≤ 4 }
    ensures value { result ≡ record_length width h }
    ensures small { result ≤ 68 }
{
    4 * h.rows as usize + width + 4 * h.columns as usize
}

// Where record k begins.
pub fn record_start(h: Header, width: usize, k: usize) -> usize
    requires rows { h.rows ≤ 8 }
    requires columns { h.columns ≤ 8 }
    requires width { width ≤ 4 }
    requires number { k ≤ 512 }
    ensures value { result ≡ record_start width h k }
    ensures small { result ≤ 34823 }
{
    START + k * record_length(h, width)
}

// Tests whether a file is a round file of the sheet (refusal 12).
pub fn test_file(h: Header, file: &[u8]) -> Result<(), Refusal>
    requires rows { h.rows ≤ 8 }
    requires columns { h.columns ≤ 8 }
    ensures { refused_with result ≡ number_of (counting h file.now) }
{
    if file.len() < START {
        return Err(Refusal::File);
    }
    if !has_mark(file, MARK) {
        return Err(Refusal::File);
    }
    if unknown_version(read_u16(file, 3)) {
        return Err(Refusal::File);
    }
    let count = read_u16(file, 5);
    if count > MOST_ROUNDS {
        return Err(Refusal::File);
    }
    if file.len() != record_start(h, file_width(file), count as usize) {
        return Err(Refusal::File);
    }
    Ok(())
}
