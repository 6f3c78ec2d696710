// Peggy's session of the OR proof with its state as a number.
ghost use Rattle.std.specs.Prelude.{◌≡◌};
ghost use Rattle.or_crossing.specs.Provers.{or_prover_of, or_session, or_answer};

use crate::{OrAnswer, OrSession};
use crossing::{prover_phase, prover_state};
use disjunctions::{OrProver, OrStep};

impl From<OrSession> for OrProver {
    ghost from_gives = { λ session held. held ≡ or_prover_of session };

    // The session that a caller hands in; a number that is no state's is taken as Dropped, which allows no call.
    fn from(session: OrSession) -> OrProver {
        let nonce = session.nonce;
        let response = session.response;
        let commitment0 = session.commitment0;
        let commitment1 = session.commitment1;
        OrProver {
            nonce,
            response,
            commitment0,
            commitment1,
            challenge: session.challenge,
            side: session.side,
            phase: prover_phase(session.phase),
        }
    }
}

impl From<OrProver> for OrSession {
    ghost from_gives = { λ held session. session ≡ or_session held };

    // The session as it is handed out.
    fn from(session: OrProver) -> OrSession {
        let nonce = session.nonce;
        let response = session.response;
        let commitment0 = session.commitment0;
        let commitment1 = session.commitment1;
        let phase = session.phase;
        OrSession {
            nonce,
            response,
            commitment0,
            commitment1,
            challenge: session.challenge,
            side: session.side,
            phase: prover_state(phase),
        }
    }
}

// What a call answers, given the session that it was handed: where it is refused, that session comes back as it was handed in.
pub fn or_answer(given: OrSession, step: OrStep) -> OrAnswer
    ensures { result ≡ or_answer given step }
{
    let refusal = step.refusal;
    let values0 = step.values0;
    let values1 = step.values1;
    let challenge0 = step.challenge0;
    if refusal != 0 {
        return OrAnswer {
            session: given,
            values0,
            values1,
            challenge0,
            refusal,
        };
    }
    let session = step.session;
    OrAnswer {
        session: OrSession::from(session),
        values0,
        values1,
        challenge0,
        refusal,
    }
}
