// The calls on rounds of the OR proof (02, card 4): judging and extracting.
ghost use Rattle.std.specs.Prelude.{◌≡◌};
ghost use Rattle.disjunctions.specs.Extractor.{extract_or};
ghost use Rattle.disjunctions.specs.Judge.{judge_or};
ghost use Rattle.or_crossing.specs.Verdicts.{or_judgement};

use disjunctions::{OrExtracted, OrRound};
use or_crossing::OrJudgement;

// The verdict on a round of two sheets: accepted, rejected with all rows of both whose two sides differ, none for one that is
// accepted, or refused with 2 to 11 of either sheet, 26 for different challenge counts, or 14 to 16 for the round.
#[unsafe(no_mangle)]
pub extern "C" fn dimkhoros_or_judge(first: &[u8], second: &[u8], round: OrRound) -> OrJudgement
    ensures { result ≡ or_judgement (judge_or first.now second.now round) }
{
    OrJudgement::from(or_judge::judge(first, second, round))
}

// The witness from two accepted rounds with the same commitments and different c, and the side that it is of: 0 where their c0
// differ, else 1. Zeros beside the number, 2 to 11, 26, 14 to 16 or 18 to 20, where it is refused.
#[unsafe(no_mangle)]
pub extern "C" fn dimkhoros_or_extract(
    first: &[u8],
    second: &[u8],
    a: OrRound,
    b: OrRound,
) -> OrExtracted
    ensures { result ≡ extract_or first.now second.now a b }
{
    or_extractor::extract(first, second, a, b)
}
