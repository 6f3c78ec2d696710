// Reading a round file for a sheet whose fixed fields are loaded (01, "A round" and refusals 12 and 13; 02, card 7).
// The bounds of fixed fields are clauses and no type, since a `Sheet` would ask more of callers.
ghost use Rattle.std.specs.Prelude.{◌+◌, ◌*◌, ◌≤◌, ◌≡◌, length};
ghost use Rattle.lists.specs.Places.{pad8};
ghost use Rattle.encoding.specs.Bytes.{number_at, words_at};
ghost use Rattle.rules.specs.Call.{answer};
ghost use Rattle.refusals.specs.Number.{refused_with};
ghost use Rattle.formats.specs.RoundFile.{record_length, round_at};
ghost use Rattle.formats.specs.RoundCalls.{counting, checking, locating, fetching};
ghost use Rattle.round_layout.specs.Width.{IsWidth};
ghost use Rattle.round_file.specs.Results.{counted, fetched, located};

use fields::{read_u16, read_u32, read_words};
use refusals::Refusal;
use round_layout::{file_width, record_length, record_start, test_file};
use types::{Header, Part, Round};

// How many rounds a file has.
pub fn count_in(h: Header, file: &[u8]) -> Result<u32, Refusal>
    requires rows { h.rows ≤ 8 }
    requires columns { h.columns ≤ 8 }
    ensures { counted result ≡ answer (counting h file.now) }
{
    test_file(h, file)?;
    Ok(read_u16(file, 5))
}

// Tests whether a file has a round k (refusals 12 and 13).
pub fn check_in(h: Header, file: &[u8], k: usize) -> Result<(), Refusal>
    requires rows { h.rows ≤ 8 }
    requires columns { h.columns ≤ 8 }
    ensures { refused_with result ≡ answer (checking h file.now k) }
{
    let count = count_in(h, file)?;
    if count as usize <= k {
        return Err(Refusal::Round);
    }
    Ok(())
}

// Where round k stands in a file.
pub fn locate_in(h: Header, file: &[u8], k: usize) -> Result<Part, Refusal>
    requires rows { h.rows ≤ 8 }
    requires columns { h.columns ≤ 8 }
    ensures number { refused_with result ≡ answer (checking h file.now k) }
    ensures place { located result ≡ answer (locating h file.now k) }
{
    check_in(h, file, k)?;
    let width = file_width(file);
    Ok(Part {
        offset: record_start(h, width, k),
        length: record_length(h, width),
    })
}

// The n numbers in the 4 n bytes of a file from index at on, and 0 in the places beyond them. A number that is alone stands in
// its array at once, so that what copies the array need not wait.
fn places_at(file: &[u8], at: usize, n: usize) -> [u32; 8]
    requires count { n ≤ 8 }
    requires within { at + 4 * n ≤ length file.now }
    ensures { result ≡ pad8 0 (words_at file.now at n) }
{
    if n == 1 {
        return [read_u32(file, at), 0, 0, 0, 0, 0, 0, 0];
    }
    read_words(file, at, n)
}

// The challenge of width bytes that begins at index at of a file.
pub fn challenge_at(file: &[u8], width: usize, at: usize) -> u32
    requires width { IsWidth width }
    requires within { at + width ≤ length file.now }
    ensures { result ≡ number_at width file.now at }
{
    if width == 2 {
        return read_u16(file, at);
    }
    read_u32(file, at)
}

// The values of the record that begins at index at of a file and whose challenge has width bytes.
pub fn round_at(h: Header, width: usize, file: &[u8], at: usize) -> Round
    requires rows { h.rows ≤ 8 }
    requires columns { h.columns ≤ 8 }
    requires width { IsWidth width }
    requires within { at + record_length width h ≤ length file.now }
    ensures { result ≡ round_at width h file.now at }
{
    let rows = h.rows as usize;
    let columns = h.columns as usize;
    let commitment = places_at(file, at, rows);
    let challenge = challenge_at(file, width, at + 4 * rows);
    let response = places_at(file, at + 4 * rows + width, columns);
    Round {
        commitment,
        challenge,
        response,
    }
}

// The values of round k of a file, which are not tested.
pub fn read_in(h: Header, file: &[u8], k: usize) -> Result<Round, Refusal>
    requires rows { h.rows ≤ 8 }
    requires columns { h.columns ≤ 8 }
    ensures { fetched result ≡ answer (fetching h file.now k) }
{
    check_in(h, file, k)?;
    let width = file_width(file);
    Ok(round_at(h, width, file, record_start(h, width, k)))
}
