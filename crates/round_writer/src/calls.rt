// The record writer on a sheet's bytes (01, "A round"): it loads the sheet, and a refused sheet's number is its answer.
// C reads the answers, so a refusal stands in them as a number.
ghost use Rattle.std.specs.Prelude.{◌≡◌};
ghost use Rattle.refusals.specs.Number.{written};
ghost use Rattle.formats.specs.Append.{append};

use crate::writing::append_in;
use instance::Sheet;
use refusals::{Refusal, written};
use types::{Round, Written};

// Writes round straight behind the first used bytes of buffer, and gives the count of bytes in use. Where it is refused, buffer
// keeps its bytes.
fn append_to(sheet: &[u8], buffer: &mut [u8], used: usize, round: Round) -> Result<usize, Refusal>
    ensures answer { written result ≡ (append sheet.now buffer.old used round).answer }
    ensures bytes { buffer.new ≡ (append sheet.now buffer.old used round).buffer }
{
    let values = Sheet::load(sheet)?;
    append_in(values.header, buffer, used, round)
}

// Writes round straight behind the first used bytes of buffer, which are a round file, in their version, raises its count by
// one and answers the count of bytes in use. Where it is refused, with 2 to 12, 15 or 22, buffer keeps its bytes.
pub fn append(sheet: &[u8], buffer: &mut [u8], used: usize, round: Round) -> Written
    ensures answer { result ≡ (append sheet.now buffer.old used round).answer }
    ensures bytes { buffer.new ≡ (append sheet.now buffer.old used round).buffer }
{
    written(append_to(sheet, buffer, used, round))
}
