// The converter on a sheet's bytes (02, card 7): it loads the sheet, and a refused sheet's number is its answer.
// C reads the answers, so a refusal stands in them as a number.
ghost use Rattle.std.specs.Prelude.{◌≡◌};
ghost use Rattle.refusals.specs.Number.{written};
ghost use Rattle.formats.specs.Convert.{convert};

use crate::converting::convert_in;
use instance::Sheet;
use refusals::{Refusal, written};
use types::Written;

// Puts the rounds of a file in the other version at the start of buffer, and gives the length of that file. Where it is refused,
// buffer keeps its bytes.
fn convert_to(sheet: &[u8], file: &[u8], buffer: &mut [u8]) -> Result<usize, Refusal>
    ensures answer { written result ≡ (convert sheet.now file.now buffer.old).answer }
    ensures bytes { buffer.new ≡ (convert sheet.now file.now buffer.old).buffer }
{
    let values = Sheet::load(sheet)?;
    convert_in(values.header, file, buffer)
}

// Puts the rounds of a file in the other version at the start of buffer and answers the length of that file. No byte behind it is
// changed. Where the call is refused, with 2 to 12, 15 or 22, buffer keeps its bytes.
pub fn convert(sheet: &[u8], file: &[u8], buffer: &mut [u8]) -> Written
    ensures answer { result ≡ (convert sheet.now file.now buffer.old).answer }
    ensures bytes { buffer.new ≡ (convert sheet.now file.now buffer.old).buffer }
{
    written(convert_to(sheet, file, buffer))
}
