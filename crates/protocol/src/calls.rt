// The calls on a sheet's bytes (01, "A round"): each loads the sheet, and a refused sheet's number is its answer.
// C reads the answers, so a refusal stands in them as a number.
ghost use Rattle.std.specs.Prelude.{◌≡◌};
ghost use Rattle.refusals.specs.Number.{computed};
ghost use Rattle.runs.specs.Calls.{judge_round, simulate_commitment};

use crate::loaded::{simulate_loaded, test_round};
use image::verdict;
use instance::Sheet;
use refusals::{Refusal, computed};
use types::{Computed, Round, Verdict};

// The verdict on a round: accepted, rejected with all rows whose two sides differ, or refused with 2 to 11 for the sheet or 14 to
// 16 for the round.
pub fn judge(sheet: &[u8], round: Round) -> Verdict
    ensures { result ≡ judge_round sheet.now round }
{
    match Sheet::load(sheet) {
        Ok(loaded) => {
            let t = round.commitment;
            let r = round.response;
            match test_round(loaded.header, t, round.challenge, r) {
                Ok(()) => verdict(&loaded, t, round.challenge, r),
                Err(refusal) => Verdict::Refused(refusal.number()),
            }
        }
        Err(refusal) => Verdict::Refused(refusal.number()),
    }
}

// The simulated commitment for challenge c and response r, refused with 2 to 11, 15 or 16.
fn simulated_commitment(sheet: &[u8], c: u32, r: [u32; 8]) -> Result<[u32; 8], Refusal>
    ensures { computed result ≡ simulate_commitment sheet.now c r }
{
    let loaded = Sheet::load(sheet)?;
    simulate_loaded(&loaded, c, r)
}

// The simulated commitment for challenge c and response r; zeros beside the number, 2 to 11, 15 or 16, where it is refused.
pub fn simulate(sheet: &[u8], c: u32, r: [u32; 8]) -> Computed
    ensures { result ≡ simulate_commitment sheet.now c r }
{
    computed(simulated_commitment(sheet, c, r))
}
