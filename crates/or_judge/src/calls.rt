// The call on two sheets' bytes (02, card 4): it loads both sheets, and the number of a refused pair is its answer.
ghost use Rattle.std.specs.Prelude.{◌≡◌};
ghost use Rattle.disjunctions.specs.Judge.{judge_or};

use crate::rounds::test_round;
use crate::sides::verdict_or;
use disjunctions::{OrRound, OrVerdict};
use pairs::Pair;

// The verdict on a round of two sheets: accepted, rejected with all rows of both whose two sides differ, none for one that is
// accepted, or refused with 2 to 11 of either sheet, 26 for different challenge counts, or 14 to 16 for the round.
pub fn judge(first: &[u8], second: &[u8], round: OrRound) -> OrVerdict
    ensures { result ≡ judge_or first.now second.now round }
{
    match Pair::load(first, second) {
        Ok(pair) => match test_round(pair.first.header, pair.second.header, round) {
            Ok(()) => verdict_or(&pair, round),
            Err(refusal) => OrVerdict::OrRefused(refusal.number()),
        },
        Err(refusal) => OrVerdict::OrRefused(refusal.number()),
    }
}
