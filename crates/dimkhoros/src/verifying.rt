// The calls on Vic's session. A refused call hands the session back as it was handed in.
ghost use Rattle.std.specs.Prelude.{◌≡◌};
ghost use Rattle.runs.specs.Verifier.{new_verifier, take_commitment, take_challenge, take_response};
ghost use Rattle.crossing.specs.Verifiers.{verifier_of, verifier_session, verifier_answer, verifier_judgement};

use crossing::{
    VerifierAnswer, VerifierJudgement, VerifierSession, verifier_answer, verifier_judgement,
};
use types::Verifier;

// A new session: Waiting, with zeros.
#[unsafe(no_mangle)]
pub extern "C" fn dimkhoros_verifier_new() -> VerifierSession
    ensures { result ≡ verifier_session new_verifier }
{
    VerifierSession::from(verifier::new())
}

// Brings a commitment, which leads from Waiting to Holding, or is refused with 2 to 11, 14 or 21.
#[unsafe(no_mangle)]
pub extern "C" fn dimkhoros_verifier_commitment(
    sheet: &[u8],
    session: VerifierSession,
    commitment: &[u32; 8],
) -> VerifierAnswer
    ensures { result ≡
        verifier_answer session (take_commitment sheet.now (verifier_of session) commitment.now) }
{
    verifier_answer(
        session,
        verifier::take_commitment(sheet, Verifier::from(session), *commitment),
    )
}

// Brings a challenge, which leads from Holding to Asked, or is refused with 2 to 11, 15 or 21.
#[unsafe(no_mangle)]
pub extern "C" fn dimkhoros_verifier_challenge(
    sheet: &[u8],
    session: VerifierSession,
    challenge: u32,
) -> VerifierAnswer
    ensures { result ≡ verifier_answer session (take_challenge sheet.now (verifier_of session) challenge) }
{
    verifier_answer(
        session,
        verifier::take_challenge(sheet, Verifier::from(session), challenge),
    )
}

// Brings a response, which gets the verdict and leads from Asked to Judged, or is refused with 2 to 11, 16 or 21.
#[unsafe(no_mangle)]
pub extern "C" fn dimkhoros_verifier_response(
    sheet: &[u8],
    session: VerifierSession,
    response: &[u32; 8],
) -> VerifierJudgement
    ensures { result ≡
        verifier_judgement session (take_response sheet.now (verifier_of session) response.now) }
{
    verifier_judgement(
        session,
        verifier::take_response(sheet, Verifier::from(session), *response),
    )
}
