// Saving Peggy's session under a name and returning to it (02, card 13; refusal 34). A refused call hands back the session as it was
// handed in. No values are answered, zeros stand there.
// C reads the answers, so a refusal stands in them as a number.
ghost use Rattle.std.specs.Prelude.{◌≡◌};
ghost use Rattle.runs.specs.Saving.{return_to, save};
ghost use Rattle.crossing.specs.Provers.{prover_of, prover_answer};

use crossing::{ProverAnswer, ProverSession, prover_phase, prover_state};
use refusals::Refusal;
use types::Saved;

// Saves the state, nonce and commitment of a session under a name, in place of what was saved there. Refused with 34 for a name of 8
// or more.
pub fn save(mut session: ProverSession, name: u32) -> ProverAnswer
    ensures { result ≡ prover_answer session (save (prover_of session) name) }
{
    let values = [0u32; 8];
    if name >= 8 {
        return ProverAnswer {
            session,
            values,
            refusal: Refusal::Name.number(),
        };
    }
    let nonce = session.nonce;
    let commitment = session.commitment;
    let phase = prover_state(prover_phase(session.phase));
    let mut memory = session.memory;
    memory.saved[name as usize] = Saved {
        nonce,
        commitment,
        phase,
        kept: 1,
    };
    session.phase = phase;
    session.memory = memory;
    ProverAnswer {
        session,
        values,
        refusal: 0,
    }
}

// Brings back the state, nonce and commitment that were saved under a name, and changes nothing else. Refused with 34 for a name of 8
// or more, and for one that was never saved.
pub fn return_to(mut session: ProverSession, name: u32) -> ProverAnswer
    ensures { result ≡ prover_answer session (return_to (prover_of session) name) }
{
    let values = [0u32; 8];
    if name >= 8 {
        return ProverAnswer {
            session,
            values,
            refusal: Refusal::Name.number(),
        };
    }
    let memory = session.memory;
    let saved = memory.saved[name as usize];
    if saved.kept == 0 {
        return ProverAnswer {
            session,
            values,
            refusal: Refusal::Name.number(),
        };
    }
    let nonce = saved.nonce;
    let commitment = saved.commitment;
    let phase = prover_state(prover_phase(saved.phase));
    session.nonce = nonce;
    session.commitment = commitment;
    session.phase = phase;
    ProverAnswer {
        session,
        values,
        refusal: 0,
    }
}
