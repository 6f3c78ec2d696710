// The level at which a file is marked (02, card 3).
ghost use Rattle.std.specs.Prelude.{not, ◌||◌, [], ◌∷◌, ◌≡◌, ◌≤◌, IfOk};
ghost use Rattle.refusals.specs.Number.{refused_with};
ghost use Rattle.rules.specs.Rule.{◌when◌, lowest};
ghost use Rattle.runs.specs.Level.{bad_level, level_of, strong_enough};

use powers::{power_exceeds, power_of_two_less_one};
use refusals::Refusal;

// The level that a level's bytes say, refused with 25 where they are not exactly one byte from 1 to 64.
pub fn level_of(level: &[u8]) -> Result<u32, Refusal>
    ensures number { refused_with result ≡ lowest ((25 when bad_level level.now) ∷ []) }
    ensures value { IfOk result (λ bits. (bits ≡ level_of level.now) × (bits ≤ 64)) }
{
    if level.len() != 1 {
        return Err(Refusal::Level);
    }
    let bits = level[0] as u32;
    if bits < 1 {
        return Err(Refusal::Level);
    }
    if bits > 64 {
        return Err(Refusal::Level);
    }
    Ok(bits)
}

// Whether a file of count rounds fails at a level: a round of it failed, or the product of one K, the number of challenges, for
// each round is below 2^w.
pub fn fails_at(failed: bool, challenges: u32, count: u32, level: u32) -> bool
    requires { level ≤ 64 }
    ensures { result ≡ failed || not (strong_enough challenges count level) }
{
    if failed {
        return true;
    }
    let below = power_of_two_less_one(level);
    !power_exceeds(challenges, count, below)
}
