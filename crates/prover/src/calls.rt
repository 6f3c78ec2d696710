// The calls on a sheet's bytes (01, "Sessions"): each loads the sheet, and a refused sheet's refusal is its answer.
ghost use Rattle.std.specs.Prelude.{◌≡◌};
ghost use Rattle.types.specs.declared.Memory.{Memory};
ghost use Rattle.rules.specs.Rule.{lowest};
ghost use Rattle.runs.specs.Prover.{commit, respond};
ghost use Rattle.prover.specs.Parts.{answered_step, committed_step, list_rules, prover_with};

use crate::loaded::{commit_loaded, respond_loaded};
use crate::{Committing, Held};
use instance::Sheet;
use refusals::Refusal;
use types::Memory;

// Commits a session to a nonce: its slots and its image, zeros beyond them. Refused with 2 to 11 or 16, or with 21 if the session is
// not New.
pub fn commit(sheet: &[u8], held: Held, nonce: [u32; 8]) -> Result<Committing, Refusal>
    ensures { (m : Memory) → committed_step (prover_with held m) result ≡ commit sheet.now (prover_with held m) nonce }
{
    let loaded = Sheet::load(sheet)?;
    commit_loaded(&loaded, held, nonce)
}

// The response of a session to a challenge, with a witness. Refused with 2 to 11 or 15 to 17, with 21 if the session is not Committed
// or holds what does not fit, or by the list of answered commitments with 32 or 33. Of the memory it reads only the number that the list
// gives, so the answer is that on every memory whose list gives the same number.
pub fn respond(
    sheet: &[u8],
    held: Held,
    memory: &Memory,
    challenge: u32,
    witness: [u32; 8],
) -> Result<[u32; 8], Refusal>
    ensures answer { answered_step (prover_with held memory.now) result ≡ respond sheet.now (prover_with held memory.now) challenge witness }
    ensures alike { (m : Memory) → lowest (list_rules m held.commitment) ≡ lowest (list_rules memory.now held.commitment)
        → answered_step (prover_with held m) result ≡ respond sheet.now (prover_with held m) challenge witness }
{
    let loaded = Sheet::load(sheet)?;
    respond_loaded(&loaded, held, memory, challenge, witness)
}
