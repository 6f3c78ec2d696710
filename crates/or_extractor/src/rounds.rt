// The tests of two rounds of the OR proof, by the fixed fields of both sheets (02, card 4; refusals 14 to 16, 18 and 19).
// These read fixed fields alone, so they take a `Header` with its bounds, and not a whole `Sheet`.
ghost use Rattle.std.specs.Prelude.{◌≡◌, ◌||◌, List, ℕ};
ghost use Rattle.rules.specs.Rule.{lowest};
ghost use Rattle.sigma.specs.Comparison.{differ};
ghost use Rattle.sigma.specs.Instance.{instance_with};
ghost use Rattle.refusals.specs.Number.{refused_with};
ghost use Rattle.or_judge.specs.Values.{FewPlaces};
ghost use Rattle.or_extractor.specs.Rounds.{rounds_rules};

use comparison::differ;
use disjunctions::OrRound;
use or_judge::test_round;
use pairs::both;
use refusals::Refusal;
use types::Header;

// Whether two rounds differ in one of their commitments.
fn commitments_differ(first: Header, second: Header, a: OrRound, b: OrRound) -> bool
    requires { FewPlaces first × FewPlaces second }
    ensures { result ≡ (differ first.rows a.commitment0 b.commitment0
        || differ second.rows a.commitment1 b.commitment1) }
{
    differ(a.commitment0, b.commitment0, first.rows as usize)
        || differ(a.commitment1, b.commitment1, second.rows as usize)
}

// Tests two rounds, which are refused with 14 to 16, 18 or 19. Each of 14 to 16 is asked of both rounds before the next, so the lower
// of their numbers counts; 18 is for commitments that differ, 19 for equal challenges.
pub fn test_rounds(first: Header, second: Header, a: OrRound, b: OrRound) -> Result<(), Refusal>
    requires { FewPlaces first × FewPlaces second }
    ensures { (entries entries' : List (List ℕ)) (z z' : List ℕ) → refused_with result
        ≡ lowest (rounds_rules (instance_with first entries z) (instance_with second entries' z') a b) }
{
    both(test_round(first, second, a), test_round(first, second, b))?;
    if commitments_differ(first, second, a, b) {
        return Err(Refusal::OtherCommitment);
    }
    if a.challenge == b.challenge {
        return Err(Refusal::SameChallenge);
    }
    Ok(())
}
