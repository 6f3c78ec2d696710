// Committing and responding on loaded values (01, "Sessions"; refusals 15 to 17, 21, 32 and 33).
// What a call brings is tested before the session.
ghost use Rattle.std.specs.Prelude.{List, ◌≡◌, ℕ, ◌≤◌, ◌<◌};
ghost use Rattle.types.specs.declared.Memory.{Memory};
ghost use Rattle.refusals.specs.Number.{refused_with};
ghost use Rattle.rules.specs.Call.{answer, number_of};
ghost use Rattle.rules.specs.Rule.{lowest};
ghost use Rattle.runs.specs.Prover.{committing, unfit_prover, responding};
ghost use Rattle.sigma.specs.Instance.{instance_with};
ghost use Rattle.instance.specs.Values.{values_of};
ghost use Rattle.prover.specs.Parts.{answered_step, committed_step, list_rules, prover_with};

use crate::list::test_list;
use crate::{Committing, Held};
use comparison::{differ, first_places};
use image::{image, response};
use instance::Sheet;
use modular::some_non_coordinate;
use refusals::Refusal;
use types::{Header, Memory, ProverPhase};

// Tests whether a session may commit to a nonce, which is refused with 16 for a nonce slot that is no domain slot, 21 in any state
// but New. It reads fixed fields alone, so it takes a `Header` with its bounds.
fn test_commit(h: Header, held: Held, nonce: [u32; 8]) -> Result<(), Refusal>
    requires { (0 < h.modulus) × (h.columns ≤ 8) }
    ensures { (entries : List (List ℕ)) (statement : List ℕ) (m : Memory)
        → refused_with result ≡ number_of (committing (instance_with h entries statement) (prover_with held m) nonce) }
{
    let columns = h.columns as usize;
    if some_non_coordinate(h, nonce, columns) {
        return Err(Refusal::Slot);
    }
    let phase = held.phase;
    let ProverPhase::New = phase else {
        return Err(Refusal::Session);
    };
    Ok(())
}

// Commits a session to a nonce: its slots and its image, zeros beyond them. Refused with 16, or with 21 if the session is not New. The
// statement is not read.
pub fn commit_loaded(sheet: &Sheet, held: Held, nonce: [u32; 8]) -> Result<Committing, Refusal>
    ensures { (m : Memory)
        → committed_step (prover_with held m) result ≡ answer (committing (values_of sheet.now) (prover_with held m) nonce) }
{
    let h = sheet.header;
    test_commit(h, held, nonce)?;
    Ok(Committing {
        nonce: first_places(nonce, h.columns as usize),
        commitment: image(h, sheet.entries, nonce),
    })
}

// Whether what a session holds does not fit: a nonce slot is no domain slot, or the nonce's image, 0 beyond s, is not the held
// commitment in all eight places.
fn unfit(sheet: &Sheet, held: Held) -> bool
    ensures { (m : Memory) → result ≡ unfit_prover (values_of sheet.now) (prover_with held m) }
{
    let h = sheet.header;
    let k = held.nonce;
    let t = held.commitment;
    if some_non_coordinate(h, k, h.columns as usize) {
        return true;
    }
    differ(image(h, sheet.entries, k), t, 8)
}

// Tests whether a session may respond, which is refused with 15 for a challenge of K or more, 16 for a witness slot that is no domain
// slot, 17 for a witness whose image is not the statement, 21 in any state but Committed or for held values that do not fit, or by
// the list of answered commitments with 32 or 33.
fn test_respond(
    sheet: &Sheet,
    held: Held,
    memory: &Memory,
    challenge: u32,
    witness: [u32; 8],
) -> Result<(), Refusal>
    ensures { refused_with result ≡ number_of (responding (values_of sheet.now) (prover_with held memory.now) challenge witness) }
{
    let h = sheet.header;
    let rows = h.rows as usize;
    let columns = h.columns as usize;
    if challenge >= h.challenges {
        return Err(Refusal::Challenge);
    }
    if some_non_coordinate(h, witness, columns) {
        return Err(Refusal::Slot);
    }
    if differ(image(h, sheet.entries, witness), sheet.statement, rows) {
        return Err(Refusal::Witness);
    }
    let phase = held.phase;
    let ProverPhase::Committed = phase else {
        return Err(Refusal::Session);
    };
    if unfit(sheet, held) {
        return Err(Refusal::Session);
    }
    test_list(memory, held.commitment)
}

// The response of a session to a challenge, with a witness. Refused with 15 to 17, with 21 if the session is not Committed or holds
// what does not fit, or by the list with 32 or 33. The answer is that on every memory whose list gives the same number.
pub fn respond_loaded(
    sheet: &Sheet,
    held: Held,
    memory: &Memory,
    challenge: u32,
    witness: [u32; 8],
) -> Result<[u32; 8], Refusal>
    ensures answer { answered_step (prover_with held memory.now) result
        ≡ answer (responding (values_of sheet.now) (prover_with held memory.now) challenge witness) }
    ensures alike { (m : Memory) → lowest (list_rules m held.commitment) ≡ lowest (list_rules memory.now held.commitment)
        → answered_step (prover_with held m) result ≡ answer (responding (values_of sheet.now) (prover_with held m) challenge witness) }
{
    test_respond(sheet, held, memory, challenge, witness)?;
    let nonce = held.nonce;
    Ok(response(sheet.header, nonce, challenge, witness))
}
