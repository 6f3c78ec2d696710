// The calls on a sheet and a round file (01, "A round"): each loads the sheet, and a refused sheet's number is its answer.
// C reads the answers, so a refusal stands in them as a number.
ghost use Rattle.std.specs.Prelude.{◌≡◌};
ghost use Rattle.formats.specs.RoundCalls.{no_round, count_rounds, check_round, locate_round, part_of_round, fetch_round};
ghost use Rattle.refusals.specs.Number.{refused_with};
ghost use Rattle.round_file.specs.Results.{counted, fetched, located};

use crate::reading::{check_in, count_in, locate_in, read_in};
use instance::Sheet;
use refusals::Refusal;
use types::{Counted, Fetched, Part, Round};

// How many rounds a file has.
fn count_of(sheet: &[u8], file: &[u8]) -> Result<u32, Refusal>
    ensures { counted result ≡ count_rounds sheet.now file.now }
{
    let values = Sheet::load(sheet)?;
    count_in(values.header, file)
}

// How many rounds a file has; 0 beside the number, 2 to 12, where the sheet or the file is refused.
pub fn count(sheet: &[u8], file: &[u8]) -> Counted
    ensures { result ≡ count_rounds sheet.now file.now }
{
    match count_of(sheet, file) {
        Ok(count) => Counted { count, refusal: 0 },
        Err(refusal) => Counted {
            count: 0,
            refusal: refusal.number(),
        },
    }
}

// Tests whether a file has a round k.
fn test_number(sheet: &[u8], file: &[u8], k: usize) -> Result<(), Refusal>
    ensures { refused_with result ≡ check_round sheet.now file.now k }
{
    let values = Sheet::load(sheet)?;
    check_in(values.header, file, k)
}

// The number that round k of a file is refused with, 2 to 13, or 0.
pub fn check(sheet: &[u8], file: &[u8], k: usize) -> u32
    ensures { result ≡ check_round sheet.now file.now k }
{
    match test_number(sheet, file, k) {
        Ok(()) => 0,
        Err(refusal) => refusal.number(),
    }
}

// Where round k stands in a file.
fn place_of(sheet: &[u8], file: &[u8], k: usize) -> Result<Part, Refusal>
    ensures { located result ≡ locate_round sheet.now file.now k }
{
    let values = Sheet::load(sheet)?;
    locate_in(values.header, file, k)
}

// Where round k stands in a file, 0 and 0 where it is refused; `check` of the same inputs gives the number.
pub fn locate(sheet: &[u8], file: &[u8], k: usize) -> Part
    ensures { result ≡ locate_round sheet.now file.now k }
{
    match place_of(sheet, file, k) {
        Ok(place) => place,
        Err(_) => Part {
            offset: 0,
            length: 0,
        },
    }
}

// The part of a file that is round k, empty where it is refused; `check` of the same inputs gives the number.
pub fn part<'a, 'b>(sheet: &'b [u8], file: &'a [u8], k: usize) -> &'a [u8]
    ensures { result.now ≡ part_of_round sheet.now file.now k }
{
    let found = locate(sheet, file, k);
    let start = found.offset;
    let end = start + found.length;
    &file[start..end]
}

// The values of round k of a file, which are not tested.
fn round_of(sheet: &[u8], file: &[u8], k: usize) -> Result<Round, Refusal>
    ensures { fetched result ≡ fetch_round sheet.now file.now k }
{
    let values = Sheet::load(sheet)?;
    read_in(values.header, file, k)
}

// A round of zeros.
fn no_round() -> Round
    ensures { result ≡ no_round }
{
    let zeros = [0u32; 8];
    Round {
        commitment: zeros,
        challenge: 0,
        response: zeros,
    }
}

// The values of round k of a file, which are not tested; zeros beside the number, 2 to 13, where it is refused.
pub fn read(sheet: &[u8], file: &[u8], k: usize) -> Fetched
    ensures { result ≡ fetch_round sheet.now file.now k }
{
    match round_of(sheet, file, k) {
        Ok(round) => Fetched { round, refusal: 0 },
        Err(refusal) => Fetched {
            round: no_round(),
            refusal: refusal.number(),
        },
    }
}
