// Committing on a sheet's bytes. A refused call hands back the session as it was handed in, beside zeros. The session is a large
// struct: the call on what it holds is handed no memory, and a session that has committed is made of its parts.
// C reads the answers, so a refusal stands in them as a number.
ghost use Rattle.std.specs.Prelude.{◌≡◌};
ghost use Rattle.runs.specs.Prover.{commit};
ghost use Rattle.crossing.specs.Provers.{prover_of, prover_answer};

use crossing::{ProverAnswer, ProverSession, prover_phase, prover_state};
use prover::Held;
use types::ProverPhase;

// Commits a New session to a nonce: its slots and its image are stored, zeros beyond them, and the image is answered. Refused with 2
// to 11, 16 or 21.
pub fn commit(sheet: &[u8], session: ProverSession, nonce: [u32; 8]) -> ProverAnswer
    ensures { result ≡ prover_answer session (commit sheet.now (prover_of session) nonce) }
{
    let before = session.nonce;
    let commitment = session.commitment;
    let held = Held {
        nonce: before,
        commitment,
        phase: prover_phase(session.phase),
    };
    match prover::commit(sheet, held, nonce) {
        Ok(told) => {
            let kept = told.nonce;
            let values = told.commitment;
            let memory = session.memory;
            ProverAnswer {
                session: ProverSession {
                    nonce: kept,
                    commitment: values,
                    phase: prover_state(ProverPhase::Committed),
                    memory,
                },
                values,
                refusal: 0,
            }
        }
        Err(refusal) => ProverAnswer {
            session,
            values: [0u32; 8],
            refusal: refusal.number(),
        },
    }
}
