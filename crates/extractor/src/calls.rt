// The call on a sheet's bytes (01, "A round"): it loads the sheet, and a refused sheet's number is its answer.
// C reads the answers, so a refusal stands in them as a number.
ghost use Rattle.std.specs.Prelude.{◌≡◌};
ghost use Rattle.refusals.specs.Number.{computed};
ghost use Rattle.runs.specs.Calls.{extract_witness};

use crate::loaded::extract_loaded;
use instance::Sheet;
use refusals::{Refusal, computed};
use types::{Computed, Round};

// The witness from two accepted rounds with one commitment and different challenges, refused with 2 to 11, 14 to 16 or 18 to 20.
fn extracted_witness(sheet: &[u8], first: Round, second: Round) -> Result<[u32; 8], Refusal>
    ensures { computed result ≡ extract_witness sheet.now first second }
{
    let loaded = Sheet::load(sheet)?;
    extract_loaded(&loaded, first, second)
}

// The witness from two accepted rounds with one commitment and different challenges; zeros beside the number, 2 to 11, 14 to
// 16 or 18 to 20, where it is refused.
pub fn extract(sheet: &[u8], first: Round, second: Round) -> Computed
    ensures { result ≡ extract_witness sheet.now first second }
{
    computed(extracted_witness(sheet, first, second))
}
