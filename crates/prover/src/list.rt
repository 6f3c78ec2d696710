// The list of answered commitments (02, card 13; refusals 32 and 33).
ghost use Rattle.std.specs.Prelude.{◌≡◌, not, min};
ghost use Rattle.std.specs.List.{list_any};
ghost use Rattle.numbers.specs.Search.{any};
ghost use Rattle.sigma.specs.Comparison.{differ};
ghost use Rattle.refusals.specs.Number.{refused_with};
ghost use Rattle.rules.specs.Rule.{lowest};
ghost use Rattle.prover.specs.Entries.{is_entry};
ghost use Rattle.prover.specs.Parts.{list_rules};

use comparison::differ;
use refusals::Refusal;
use types::{Listed, Memory};

// Whether one of some entries is a commitment, in all eight places.
// By differ: with == the proof of is_listed (goal returns) needs that each entry has eight places, and that did not close.
fn some_entry(answered: &[Listed], commitment: [u32; 8]) -> bool
    ensures { result ≡ list_any (λ entry. not (differ 8 entry.commitment commitment)) answered.now }
{
    answered
        .iter()
        .any(|entry| !differ(entry.commitment, commitment, 8))
}

// Whether a commitment is listed among the first count entries, or the first 64 of a larger count.
fn is_listed(answered: &[Listed; 64], count: u32, commitment: [u32; 8]) -> bool
    ensures { result ≡ any (min 64 count) (is_entry answered.now commitment) }
{
    let looked_at = count.min(64) as usize;
    some_entry(&answered[..looked_at], commitment)
}

// Tests the list: a commitment that is listed among the first count entries, 64 at most, is refused with 32, a list of 64 or more
// with 33.
pub fn test_list(memory: &Memory, commitment: [u32; 8]) -> Result<(), Refusal>
    ensures { refused_with result ≡ lowest (list_rules memory.now commitment) }
{
    if is_listed(&memory.answered, memory.count, commitment) {
        return Err(Refusal::Answered);
    }
    if memory.count >= 64 {
        return Err(Refusal::FullList);
    }
    Ok(())
}
