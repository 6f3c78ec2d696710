// The second writer of sheets: it writes the sheet of any values, as the loader gives them, at the start of the lent buffer and
// changes no byte after it; a refused call changes no byte.
// The values come in three parts, as C hands them in, and need not be those of a sheet that loads.
// C reads the answers, so a refusal stands in them as a number.
#![tactic(auto)]

mod sheet; // sheet.rt: the bytes of a sheet
mod slices; // slices.rt: slices as arrays of eight

ghost use Rattle.std.specs.Prelude.{◌≡◌};
ghost use Rattle.refusals.specs.Number.{written};
ghost use Rattle.rules.specs.Rule.{lowest};
ghost use Rattle.sigma.specs.Admission.{header_rules};
ghost use Rattle.sigma.specs.Instance.{instance_with};
ghost use Rattle.formats.specs.Encode.{encode};

use crate::sheet::write_sheet;
use instance::{sheet_length, test_elements, test_header};
pub use refusals::not_written as refused;
use refusals::{Refusal, written};
pub use slices::eight_of;
use types::{Header, Written};

// The second writer after its tests of the fixed fields, for callers that have made them: writes the sheet of any values and
// gives its length, or why they are refused, with 10, 11 or 22. In kind 2 no entry is read.
pub fn encode_tested(
    h: Header,
    entries: [[u32; 8]; 8],
    statement: [u32; 8],
    buffer: &mut [u8],
) -> Result<usize, Refusal>
    requires fields { lowest (header_rules h) ≡ 0 }
    ensures answer { written result ≡ (encode (instance_with h entries statement) buffer.old).answer }
    ensures left { buffer.new ≡ (encode (instance_with h entries statement) buffer.old).buffer }
{
    test_elements(h, entries, statement)?;
    let length = sheet_length(h);
    if buffer.len() < length {
        return Err(Refusal::Buffer);
    }
    write_sheet(buffer, h, entries, statement);
    Ok(length)
}

// The second writer as a result: writes the sheet of any values and gives its length, or why they are refused, with 4 to 8,
// 10, 11 or 22. In kind 2 no entry is read.
pub fn try_encode(
    h: Header,
    entries: [[u32; 8]; 8],
    statement: [u32; 8],
    buffer: &mut [u8],
) -> Result<usize, Refusal>
    ensures answer { written result ≡ (encode (instance_with h entries statement) buffer.old).answer }
    ensures left { buffer.new ≡ (encode (instance_with h entries statement) buffer.old).buffer }
{
    test_header(h)?;
    encode_tested(h, entries, statement, buffer)
}

// The second writer: writes the sheet of any values and answers its length, or the number that they are refused with, 4 to
// 8, 10, 11 or 22. In kind 2 no entry is read.
pub fn encode(h: Header, entries: [[u32; 8]; 8], statement: [u32; 8], buffer: &mut [u8]) -> Written
    ensures answer { result ≡ (encode (instance_with h entries statement) buffer.old).answer }
    ensures left { buffer.new ≡ (encode (instance_with h entries statement) buffer.old).buffer }
{
    written(try_encode(h, entries, statement, buffer))
}
