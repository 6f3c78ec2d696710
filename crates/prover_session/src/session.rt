// A new session, and dropping one.
// C reads the answers, so a refusal stands in them as a number.
ghost use Rattle.std.specs.Prelude.{◌≡◌};
ghost use Rattle.runs.specs.Prover.{new_prover, drop_session};
ghost use Rattle.crossing.specs.Provers.{prover_of, prover_session, prover_answer};

use crossing::{ProverAnswer, ProverSession, prover_phase, prover_state};
use refusals::Refusal;
use types::{Listed, Memory, ProverPhase, Saved};

// A new session: it is New, holds zeros, and has saved and listed nothing.
pub fn new() -> ProverSession
    ensures { result ≡ prover_session new_prover }
{
    let zeros = [0u32; 8];
    let none = Saved {
        nonce: zeros,
        commitment: zeros,
        phase: 0,
        kept: 0,
    };
    let empty = Listed { commitment: zeros };
    let saved = [none; 8];
    let answered = [empty; 64];
    let memory = Memory {
        saved,
        answered,
        count: 0,
    };
    ProverSession {
        nonce: zeros,
        commitment: zeros,
        phase: prover_state(ProverPhase::New),
        memory,
    }
}

// Drops a session that is New or Committed: the nonce is set to zeros and the commitment kept. Any other is refused with 21. No
// values are answered, zeros stand there.
pub fn drop_session(mut session: ProverSession) -> ProverAnswer
    ensures { result ≡ prover_answer session (drop_session (prover_of session)) }
{
    let values = [0u32; 8];
    let phase = prover_phase(session.phase);
    match phase {
        ProverPhase::New | ProverPhase::Committed => {
            session.nonce = [0u32; 8];
            session.phase = prover_state(ProverPhase::Dropped);
            ProverAnswer {
                session,
                values,
                refusal: 0,
            }
        }
        ProverPhase::Answered | ProverPhase::Dropped => ProverAnswer {
            session,
            values,
            refusal: Refusal::Session.number(),
        },
    }
}
