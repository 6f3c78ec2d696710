// Vic's session with its state as a number.
ghost use Rattle.std.specs.Prelude.{◌≡◌};
ghost use Rattle.crossing.specs.Verifiers.{verifier_phase, verifier_of, verifier_session, verifier_answer, verifier_judgement};

use crate::{Judgement, VerifierAnswer, VerifierJudgement, VerifierSession};
use types::{Verifier, VerifierPhase, VerifierStep, VerifierVerdict};

// The state of a number; a number that is no state's is taken as Judged, which allows no call.
// A function and no From: From and the enum belong to other crates, and each enum has a function of its own.
fn verifier_phase(number: u32) -> VerifierPhase
    ensures { result ≡ verifier_phase number }
{
    match number {
        0 => VerifierPhase::Waiting,
        1 => VerifierPhase::Holding,
        2 => VerifierPhase::Asked,
        3..=u32::MAX => VerifierPhase::Judged,
    }
}

impl From<VerifierSession> for Verifier {
    ghost from_gives = { λ session held. held ≡ verifier_of session };

    // The session that a caller hands in.
    fn from(session: VerifierSession) -> Verifier {
        let commitment = session.commitment;
        Verifier {
            commitment,
            challenge: session.challenge,
            phase: verifier_phase(session.phase),
        }
    }
}

impl From<Verifier> for VerifierSession {
    ghost from_gives = { λ held session. session ≡ verifier_session held };

    // The session as it is handed out.
    fn from(session: Verifier) -> VerifierSession {
        let commitment = session.commitment;
        let phase = session.phase;
        VerifierSession {
            commitment,
            challenge: session.challenge,
            phase: phase as u32,
        }
    }
}

// What bringing a commitment or a challenge answers, given the session that the call was handed: where it is refused, that
// session comes back as it was handed in.
pub fn verifier_answer(given: VerifierSession, step: VerifierStep) -> VerifierAnswer
    ensures { result ≡ verifier_answer given step }
{
    let refusal = step.refusal;
    if refusal != 0 {
        return VerifierAnswer {
            session: given,
            refusal,
        };
    }
    let session = step.session;
    VerifierAnswer {
        session: VerifierSession::from(session),
        refusal,
    }
}

// What bringing a response answers, given the session that the call was handed: where it is refused, that session comes back as
// it was handed in.
pub fn verifier_judgement(given: VerifierSession, told: VerifierVerdict) -> VerifierJudgement
    ensures { result ≡ verifier_judgement given told }
{
    let answer = told.verdict;
    let verdict = Judgement::from(answer);
    if verdict.refusal != 0 {
        return VerifierJudgement {
            verdict,
            session: given,
        };
    }
    let session = told.session;
    VerifierJudgement {
        verdict,
        session: VerifierSession::from(session),
    }
}
