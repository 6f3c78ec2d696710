// The calls on Vic's session for a loaded sheet, and their tests, which refuse with 14 to 16 for what a call brings, then with 21 for the
// session. A commitment and a challenge are taken by the fixed fields alone, since these calls read neither entries nor statement.
// The bounds of fixed fields are clauses and no type, since a `Sheet` would ask more of callers.
ghost use Rattle.std.specs.Prelude.{◌≡◌, List, ℕ, ◌≤◌, ◌<◌};
ghost use Rattle.lists.specs.Places.{places};
ghost use Rattle.rules.specs.Call.{answer, number_of};
ghost use Rattle.sigma.specs.Instance.{instance_with};
ghost use Rattle.sigma.specs.Round.{bad_commitment};
ghost use Rattle.refusals.specs.Number.{refused_with};
ghost use Rattle.instance.specs.Values.{values_of};
ghost use Rattle.verifier.specs.Steps.{taken, judged};
ghost use Rattle.runs.specs.Verifier.{taking_commitment, taking_challenge, taking_response};

use comparison::first_places;
use image::verdict;
use instance::Sheet;
use modular::{some_non_coordinate, some_non_element};
use refusals::Refusal;
use types::{Header, Verifier, VerifierPhase, VerifierVerdict};

// Whether a commitment, read in s places, has a value that is no group element.
fn bad_commitment(h: Header, commitment: [u32; 8]) -> bool
    requires modulus { 0 < h.modulus }
    requires rows { h.rows ≤ 8 }
    ensures { (entries : List (List ℕ)) (statement : List ℕ)
        → result ≡ bad_commitment (instance_with h entries statement) (places h.rows commitment) }
{
    some_non_element(h, commitment, h.rows as usize)
}

// Tests a commitment, which is refused with 14 for a value that is no group element, 21 for a session that is not Waiting.
fn test_commitment(h: Header, session: Verifier, commitment: [u32; 8]) -> Result<(), Refusal>
    requires modulus { 0 < h.modulus }
    requires rows { h.rows ≤ 8 }
    ensures { (entries : List (List ℕ)) (statement : List ℕ)
        → refused_with result ≡ number_of (taking_commitment (instance_with h entries statement) session commitment) }
{
    if bad_commitment(h, commitment) {
        return Err(Refusal::Commitment);
    }
    let phase = session.phase;
    let VerifierPhase::Waiting = phase else {
        return Err(Refusal::Session);
    };
    Ok(())
}

// Tests a challenge, which is refused with 15 for one of K or more, 21 for a session that is not Holding or whose commitment has a
// value that is no group element.
fn test_challenge(h: Header, session: Verifier, challenge: u32) -> Result<(), Refusal>
    requires modulus { 0 < h.modulus }
    requires rows { h.rows ≤ 8 }
    ensures { (entries : List (List ℕ)) (statement : List ℕ)
        → refused_with result ≡ number_of (taking_challenge (instance_with h entries statement) session challenge) }
{
    if challenge >= h.challenges {
        return Err(Refusal::Challenge);
    }
    let phase = session.phase;
    let VerifierPhase::Holding = phase else {
        return Err(Refusal::Session);
    };
    let held = session.commitment;
    if bad_commitment(h, held) {
        return Err(Refusal::Session);
    }
    Ok(())
}

// Tests a response, which is refused with 16 for a slot that is no domain slot, 21 for a session that is not Asked, whose commitment
// has a value that is no group element or whose challenge is K or more.
fn test_response(h: Header, session: Verifier, response: [u32; 8]) -> Result<(), Refusal>
    requires modulus { 0 < h.modulus }
    requires rows { h.rows ≤ 8 }
    requires columns { h.columns ≤ 8 }
    ensures { (entries : List (List ℕ)) (statement : List ℕ)
        → refused_with result ≡ number_of (taking_response (instance_with h entries statement) session response) }
{
    if some_non_coordinate(h, response, h.columns as usize) {
        return Err(Refusal::Slot);
    }
    let phase = session.phase;
    let VerifierPhase::Asked = phase else {
        return Err(Refusal::Session);
    };
    let held = session.commitment;
    if bad_commitment(h, held) {
        return Err(Refusal::Session);
    }
    if session.challenge >= h.challenges {
        return Err(Refusal::Session);
    }
    Ok(())
}

// Brings a commitment: its s places are stored, and a Waiting session is Holding; the challenge that it holds is kept.
pub fn take_commitment_loaded(
    h: Header,
    session: Verifier,
    commitment: [u32; 8],
) -> Result<Verifier, Refusal>
    requires modulus { 0 < h.modulus }
    requires rows { h.rows ≤ 8 }
    ensures { (entries : List (List ℕ)) (statement : List ℕ)
        → taken session result ≡ answer (taking_commitment (instance_with h entries statement) session commitment) }
{
    test_commitment(h, session, commitment)?;
    Ok(Verifier {
        commitment: first_places(commitment, h.rows as usize),
        challenge: session.challenge,
        phase: VerifierPhase::Holding,
    })
}

// Brings a challenge: it is stored, and a Holding session is Asked; the commitment that it holds is kept in all eight places.
pub fn take_challenge_loaded(
    h: Header,
    session: Verifier,
    challenge: u32,
) -> Result<Verifier, Refusal>
    requires modulus { 0 < h.modulus }
    requires rows { h.rows ≤ 8 }
    ensures { (entries : List (List ℕ)) (statement : List ℕ)
        → taken session result ≡ answer (taking_challenge (instance_with h entries statement) session challenge) }
{
    test_challenge(h, session, challenge)?;
    let commitment = session.commitment;
    Ok(Verifier {
        commitment,
        challenge,
        phase: VerifierPhase::Asked,
    })
}

// Brings a response: the verdict on it and the held commitment and challenge is answered, and an Asked session is Judged,
// whether the verdict is accepted or rejected; what it holds is kept, and the response is not stored.
pub fn take_response_loaded(
    sheet: &Sheet,
    session: Verifier,
    response: [u32; 8],
) -> Result<VerifierVerdict, Refusal>
    ensures { judged session result ≡ answer (taking_response (values_of sheet.now) session response) }
{
    test_response(sheet.header, session, response)?;
    let commitment = session.commitment;
    let challenge = session.challenge;
    Ok(VerifierVerdict {
        verdict: verdict(sheet, commitment, challenge, response),
        session: Verifier {
            commitment,
            challenge,
            phase: VerifierPhase::Judged,
        },
    })
}
