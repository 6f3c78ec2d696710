// Two sheets that are loaded together (02, card 4; refusals 2 to 11 of either, then 26), and what is left of a challenge.
#![tactic(auto)]

ghost use Rattle.std.specs.Prelude.{◌≡◌, ◌≤◌, ◌<◌, Ok, IfOk};
ghost use Rattle.rules.specs.Rule.{lowest};
ghost use Rattle.rules.proofs.Either.{lower_of};
ghost use Rattle.refusals.specs.Number.{number, refused_with};
ghost use Rattle.formats.specs.Sheet.{instance_of};
ghost use Rattle.instance.specs.Values.{values_of};
ghost use Rattle.disjunctions.specs.Judge.{pair_rules};
ghost use Rattle.disjunctions.specs.Round.{other_challenge};

use instance::Sheet;
use refusals::Refusal;

// Two sheets that load and have one challenge count.
#[derive(Clone, Copy)]
pub struct Pair {
    pub first: Sheet,
    pub second: Sheet,
    pub ghost one_count: { first.header.challenges ≡ second.header.challenges },
}

// Of two numbers the lower that is not 0.
pub fn lower(a: u32, b: u32) -> u32
    ensures { result ≡ lower_of a b }
{
    if a == 0 {
        return b;
    }
    if b == 0 {
        return a;
    }
    if b < a {
        return b;
    }
    a
}

// Of two refusals the one with the lower number. By numbers, of which the clause speaks.
fn lower_refusal(one: Refusal, other: Refusal) -> Refusal
    ensures { number result ≡ lower_of (number one) (number other) }
{
    if other.number() < one.number() {
        other
    } else {
        one
    }
}

// What two results hold, or why one of them is refused: where both are, the refusal with the lower number.
pub fn both<A: Copy, B: Copy>(
    a: Result<A, Refusal>,
    b: Result<B, Refusal>,
) -> Result<(A, B), Refusal>
    ensures number { refused_with result ≡ lower_of (refused_with a) (refused_with b) }
    ensures values { IfOk result (λ held. (a ≡ Ok held.0) × (b ≡ Ok held.1)) }
{
    match a {
        Ok(first) => match b {
            Ok(second) => Ok((first, second)),
            Err(refusal) => Err(refusal),
        },
        Err(refusal) => match b {
            Ok(_) => Err(refusal),
            Err(other) => Err(lower_refusal(refusal, other)),
        },
    }
}

impl Pair {
    // Loads two sheets, each once: their values, or why they are refused, with the lower one of 2 to 11, then 26 for different
    // challenge counts.
    pub fn load(first: &[u8], second: &[u8]) -> Result<Pair, Refusal>
        ensures number { refused_with result ≡ lowest (pair_rules first.now second.now) }
        ensures values { IfOk result (λ pair. (values_of pair.first ≡ instance_of first.now)
            × (values_of pair.second ≡ instance_of second.now)) }
    {
        let (first, second) = both(Sheet::load(first), Sheet::load(second))?;
        if first.header.challenges != second.header.challenges {
            return Err(Refusal::OtherCount);
        }
        Ok(Pair { first, second })
    }
}

// What is left of the challenge c once one is taken: their difference modulo the challenge count.
pub fn other_challenge(challenges: u32, c: u32, taken: u32) -> u32
    requires { (0 < challenges) × (taken ≤ challenges) }
    ensures value { result ≡ other_challenge challenges c taken }
    ensures below { result < challenges }
{
    let left = challenges - taken;
    ((c as u64 + left as u64) % challenges as u64) as u32
}
