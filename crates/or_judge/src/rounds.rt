// The tests of a round of the OR proof, by the fixed fields of both sheets (02, card 4; refusals 14 to 16).
// The tests of commitments and of responses are alike and stay two, since each is one sentence over a definition of its own.
// The bounds of fixed fields are clauses and no type, since a `Sheet` would ask more of callers.
ghost use Rattle.std.specs.Prelude.{◌≡◌, ◌||◌, List, ℕ};
ghost use Rattle.rules.specs.Call.{number_of};
ghost use Rattle.sigma.specs.Element.{some_non_coordinate, some_non_element};
ghost use Rattle.disjunctions.specs.Judge.{judging_or};
ghost use Rattle.sigma.specs.Instance.{instance_with};
ghost use Rattle.refusals.specs.Number.{refused_with};
ghost use Rattle.or_judge.specs.Values.{FewPlaces};

use disjunctions::OrRound;
use modular::{some_non_coordinate, some_non_element};
use refusals::Refusal;
use types::Header;

// Whether some value of one of a round's commitments is no group element of its sheet.
fn bad_commitments(first: Header, second: Header, round: OrRound) -> bool
    requires { FewPlaces first × FewPlaces second }
    ensures { result ≡ (some_non_element first first.rows round.commitment0
        || some_non_element second second.rows round.commitment1) }
{
    some_non_element(first, round.commitment0, first.rows as usize)
        || some_non_element(second, round.commitment1, second.rows as usize)
}

// Whether some slot of one of a round's responses is no domain slot of its sheet.
fn bad_responses(first: Header, second: Header, round: OrRound) -> bool
    requires { FewPlaces first × FewPlaces second }
    ensures { result ≡ (some_non_coordinate first first.columns round.response0
        || some_non_coordinate second second.columns round.response1) }
{
    some_non_coordinate(first, round.response0, first.columns as usize)
        || some_non_coordinate(second, round.response1, second.columns as usize)
}

// Tests a round, which is refused with 14 for its commitments, 15 where c or c0 is K or more, 16 for its responses.
pub fn test_round(first: Header, second: Header, round: OrRound) -> Result<(), Refusal>
    requires { FewPlaces first × FewPlaces second }
    ensures { (entries entries' : List (List ℕ)) (z z' : List ℕ)
        → refused_with result
        ≡ number_of (judging_or (instance_with first entries z) (instance_with second entries' z') round) }
{
    if bad_commitments(first, second, round) {
        return Err(Refusal::Commitment);
    }
    if round.challenge >= first.challenges || round.challenge0 >= first.challenges {
        return Err(Refusal::Challenge);
    }
    if bad_responses(first, second, round) {
        return Err(Refusal::Slot);
    }
    Ok(())
}
