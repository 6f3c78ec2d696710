// The verdict on both sides of a round of the OR proof, on two sheets that have loaded (02, card 4).
ghost use Rattle.std.specs.Prelude.{◌≡◌, ◌<◌};
ghost use Rattle.disjunctions.specs.Judge.{combined, verdict_or};
ghost use Rattle.disjunctions.specs.Round.{read_or};
ghost use Rattle.instance.specs.Values.{values_of};

use disjunctions::{OrRound, OrVerdict};
use image::verdict;
use pairs::{Pair, other_challenge};
use types::Verdict;

// The verdict on both: accepted where both sides are, else rejected with the rows of both.
fn combined(first: Verdict, second: Verdict) -> OrVerdict
    ensures { result ≡ combined first second }
{
    match (first, second) {
        (Verdict::Accepted, Verdict::Accepted) => OrVerdict::OrAccepted,
        (Verdict::Accepted, Verdict::Rejected(rows)) => OrVerdict::OrRejected(0, rows),
        (Verdict::Accepted, Verdict::Refused(number)) => OrVerdict::OrRefused(number),
        (Verdict::Rejected(rows), Verdict::Accepted) => OrVerdict::OrRejected(rows, 0),
        (Verdict::Rejected(rows), Verdict::Rejected(others)) => {
            OrVerdict::OrRejected(rows, others)
        }
        (Verdict::Rejected(_), Verdict::Refused(number)) => OrVerdict::OrRefused(number),
        (Verdict::Refused(number), _) => OrVerdict::OrRefused(number),
    }
}

// The verdict on a round: side 0 answers c0, and side 1 what is left of c.
pub fn verdict_or(pair: &Pair, round: OrRound) -> OrVerdict
    requires { round.challenge0 < pair.now.first.header.challenges }
    ensures { result ≡ verdict_or (values_of pair.now.first) (values_of pair.now.second)
        (read_or (values_of pair.now.first) (values_of pair.now.second) round) }
{
    let challenges = pair.first.header.challenges;
    let t = round.commitment0;
    let r = round.response0;
    let left = verdict(&pair.first, t, round.challenge0, r);
    let c = other_challenge(challenges, round.challenge, round.challenge0);
    let t = round.commitment1;
    let r = round.response1;
    let right = verdict(&pair.second, t, c, r);
    combined(left, right)
}
