// A new session, and the calls on a sheet's bytes (01, "Sessions"): each loads the sheet, and where that is refused the number
// is the answer and the session comes back unchanged.
// The records are those that the laws speak of, in which a refusal is its number.
ghost use Rattle.std.specs.Prelude.{◌≡◌};
ghost use Rattle.runs.specs.Verifier.{new_verifier, take_commitment, take_challenge, take_response};
ghost use Rattle.verifier.specs.Steps.{taken, judged};

use crate::answers::{judged, taken};
use crate::loaded::{take_challenge_loaded, take_commitment_loaded, take_response_loaded};
use instance::Sheet;
use refusals::Refusal;
use types::{Verifier, VerifierPhase, VerifierStep, VerifierVerdict};

// A new session: Waiting, with zeros.
pub fn new() -> Verifier
    ensures { result ≡ new_verifier }
{
    Verifier {
        commitment: [0u32; 8],
        challenge: 0,
        phase: VerifierPhase::Waiting,
    }
}

// The session after a commitment, which is refused with 2 to 11, 14 or 21.
fn with_commitment(
    sheet: &[u8],
    session: Verifier,
    commitment: [u32; 8],
) -> Result<Verifier, Refusal>
    ensures { taken session result ≡ take_commitment sheet.now session commitment }
{
    let loaded = Sheet::load(sheet)?;
    take_commitment_loaded(loaded.header, session, commitment)
}

// Brings a commitment, which leads from Waiting to Holding, or is refused with 2 to 11, 14 or 21.
pub fn take_commitment(sheet: &[u8], session: Verifier, commitment: [u32; 8]) -> VerifierStep
    ensures { result ≡ take_commitment sheet.now session commitment }
{
    taken(session, with_commitment(sheet, session, commitment))
}

// The session after a challenge, which is refused with 2 to 11, 15 or 21.
fn with_challenge(sheet: &[u8], session: Verifier, challenge: u32) -> Result<Verifier, Refusal>
    ensures { taken session result ≡ take_challenge sheet.now session challenge }
{
    let loaded = Sheet::load(sheet)?;
    take_challenge_loaded(loaded.header, session, challenge)
}

// Brings a challenge, which leads from Holding to Asked, or is refused with 2 to 11, 15 or 21.
pub fn take_challenge(sheet: &[u8], session: Verifier, challenge: u32) -> VerifierStep
    ensures { result ≡ take_challenge sheet.now session challenge }
{
    taken(session, with_challenge(sheet, session, challenge))
}

// The verdict on a response and the session after it, which is refused with 2 to 11, 16 or 21.
fn with_response(
    sheet: &[u8],
    session: Verifier,
    response: [u32; 8],
) -> Result<VerifierVerdict, Refusal>
    ensures { judged session result ≡ take_response sheet.now session response }
{
    let loaded = Sheet::load(sheet)?;
    take_response_loaded(&loaded, session, response)
}

// Brings a response, which gets the verdict and leads from Asked to Judged, or is refused with 2 to 11, 16 or 21.
pub fn take_response(sheet: &[u8], session: Verifier, response: [u32; 8]) -> VerifierVerdict
    ensures { result ≡ take_response sheet.now session response }
{
    judged(session, with_response(sheet, session, response))
}
