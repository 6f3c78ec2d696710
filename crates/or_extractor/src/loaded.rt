// Extracting from two rounds of the OR proof on two sheets that have loaded (02, card 4; refusals 14 to 16 and 18 to 20).
// The records are those that the laws speak of, in which a refusal is its number.
ghost use Rattle.std.specs.Prelude.{◌≡◌, ◌≤◌, ◌<◌};
ghost use Rattle.rules.specs.Call.{answer};
ghost use Rattle.disjunctions.specs.Extractor.{extracting_or};
ghost use Rattle.disjunctions.specs.Round.{first_round, second_round};
ghost use Rattle.instance.specs.Values.{values_of};
ghost use Rattle.or_extractor.specs.Rounds.{NotRefused, extracted};

use crate::rounds::test_rounds;
use disjunctions::{OrExtracted, OrRound, OrVerdict};
use extractor::extract_loaded;
use or_judge::verdict_or;
use pairs::{Pair, other_challenge};
use refusals::Refusal;
use types::Round;

// The witness of one of two sheets, and its side.
#[derive(Clone, Copy)]
pub struct SideWitness {
    pub values: [u32; 8],
    pub side: u32,
}

// The record of what extracting gives: a refusal's number stands beside zeros.
pub fn extracted(outcome: Result<SideWitness, Refusal>) -> OrExtracted
    ensures { result ≡ extracted outcome }
{
    match outcome {
        Ok(witness) => {
            let values = witness.values;
            OrExtracted {
                values,
                side: witness.side,
                refusal: 0,
            }
        }
        Err(refusal) => OrExtracted {
            values: [0u32; 8],
            side: 0,
            refusal: refusal.number(),
        },
    }
}

// The round of side 0.
fn first_round(round: OrRound) -> Round
    ensures { result ≡ first_round round }
{
    let OrRound {
        commitment0: commitment,
        response0: response,
        challenge0: challenge,
        ..
    } = round;
    Round {
        commitment,
        challenge,
        response,
    }
}

// The round of side 1, whose challenge is what is left of c.
fn second_round(challenges: u32, round: OrRound) -> Round
    requires { (0 < challenges) × (round.challenge0 ≤ challenges) }
    ensures { result ≡ second_round challenges round }
{
    let OrRound {
        commitment1: commitment,
        response1: response,
        ..
    } = round;
    let challenge = other_challenge(challenges, round.challenge, round.challenge0);
    Round {
        commitment,
        challenge,
        response,
    }
}

// The witness from two rounds that no rule refuses, and its side: 0 where the c0 differ, else 1.
fn named_witness(pair: &Pair, a: OrRound, b: OrRound) -> Result<SideWitness, Refusal>
    requires { NotRefused (values_of pair.now.first) (values_of pair.now.second) a b }
    ensures { extracted result ≡ answer (extracting_or (values_of pair.now.first) (values_of pair.now.second) a b) }
{
    if a.challenge0 != b.challenge0 {
        let values = extract_loaded(&pair.first, first_round(a), first_round(b))?;
        return Ok(SideWitness { values, side: 0 });
    }
    let challenges = pair.first.header.challenges;
    let c = second_round(challenges, a);
    let d = second_round(challenges, b);
    let values = extract_loaded(&pair.second, c, d)?;
    Ok(SideWitness { values, side: 1 })
}

// The witness from two accepted rounds with the same commitments and different challenges, and its side, or why it is refused, with
// 14 to 16 or 18 to 20; a round that is not accepted is 20.
pub fn extract_or_loaded(pair: &Pair, a: OrRound, b: OrRound) -> Result<SideWitness, Refusal>
    ensures { extracted result ≡ answer (extracting_or (values_of pair.now.first) (values_of pair.now.second) a b) }
{
    test_rounds(pair.first.header, pair.second.header, a, b)?;
    let OrVerdict::OrAccepted = verdict_or(pair, a) else {
        return Err(Refusal::Rejected);
    };
    let OrVerdict::OrAccepted = verdict_or(pair, b) else {
        return Err(Refusal::Rejected);
    };
    named_witness(pair, a, b)
}
