// The calls on a round's values: judging, simulating and extracting.
ghost use Rattle.std.specs.Prelude.{◌≡◌};
ghost use Rattle.runs.specs.Calls.{judge_round, simulate_commitment, extract_witness};
ghost use Rattle.crossing.specs.Verdicts.{judgement};

use crossing::Judgement;
use types::{Computed, Round};

// The verdict on a round: accepted, rejected with all rows whose two sides differ, or refused with 2 to 11 for the sheet or 14 to
// 16 for the round.
#[unsafe(no_mangle)]
pub extern "C" fn dimkhoros_judge(sheet: &[u8], round: Round) -> Judgement
    ensures { result ≡ judgement (judge_round sheet.now round) }
{
    Judgement::from(protocol::judge(sheet, round))
}

// The simulated commitment for a challenge and a response; zeros beside the number, 2 to 11, 15 or 16, where it is refused.
#[unsafe(no_mangle)]
pub extern "C" fn dimkhoros_simulate(sheet: &[u8], challenge: u32, response: &[u32; 8]) -> Computed
    ensures { result ≡ simulate_commitment sheet.now challenge response.now }
{
    protocol::simulate(sheet, challenge, *response)
}

// The witness from two accepted rounds with one commitment and different challenges; zeros beside the number, 2 to 11, 14 to
// 16 or 18 to 20, where it is refused.
#[unsafe(no_mangle)]
pub extern "C" fn dimkhoros_extract(sheet: &[u8], first: Round, second: Round) -> Computed
    ensures { result ≡ extract_witness sheet.now first second }
{
    extractor::extract(sheet, first, second)
}
