// Responding on a sheet's bytes. A refused call hands back the session as it was handed in, beside zeros. The session is a large
// struct, and copies of it take most of the time on a small sheet: the call on what it holds is lent the memory, and
// the memory is copied out once, changed there and put into the session that is handed back.
// C reads the answers, so a refusal stands in them as a number.
ghost use Rattle.std.specs.Prelude.{◌≡◌};
ghost use Rattle.runs.specs.Prover.{respond};
ghost use Rattle.crossing.specs.Provers.{prover_of, prover_answer};

use crossing::{ProverAnswer, ProverSession, prover_phase, prover_state};
use prover::Held;
use types::{Listed, ProverPhase};

// Responds to a challenge in a Committed session, with a witness: the response is answered, the nonce set to zeros, and the commitment
// kept and listed. Refused with 2 to 11, 15 to 17, 21, 32 or 33.
pub fn respond(
    sheet: &[u8],
    session: ProverSession,
    challenge: u32,
    witness: [u32; 8],
) -> ProverAnswer
    ensures { result ≡ prover_answer session (respond sheet.now (prover_of session) challenge witness) }
{
    let nonce = session.nonce;
    let commitment = session.commitment;
    let held = Held {
        nonce,
        commitment,
        phase: prover_phase(session.phase),
    };
    match prover::respond(sheet, held, &session.memory, challenge, witness) {
        Ok(values) => {
            let mut memory = session.memory;
            let at = memory.count;
            memory.answered[at as usize] = Listed { commitment };
            memory.count = at + 1;
            ProverAnswer {
                session: ProverSession {
                    nonce: [0u32; 8],
                    commitment,
                    phase: prover_state(ProverPhase::Answered),
                    memory,
                },
                values,
                refusal: 0,
            }
        }
        Err(refusal) => ProverAnswer {
            session,
            values: [0u32; 8],
            refusal: refusal.number(),
        },
    }
}
