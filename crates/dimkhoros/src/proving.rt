// The calls on Peggy's session.
ghost use Rattle.std.specs.Prelude.{◌≡◌};
ghost use Rattle.runs.specs.Prover.{new_prover, commit, respond, drop_session};
ghost use Rattle.runs.specs.Saving.{return_to, save};
ghost use Rattle.crossing.specs.Provers.{prover_of, prover_session, prover_answer};

use crossing::{ProverAnswer, ProverSession};

// A new session: New, with zeros; nothing is saved and nothing is listed.
#[unsafe(no_mangle)]
pub extern "C" fn dimkhoros_prover_new() -> ProverSession
    ensures { result ≡ prover_session new_prover }
{
    prover_session::new()
}

// Commits a New session to a nonce: its slots and its image are stored, zeros beyond them, and the image is answered. Where it
// is refused, with 2 to 11, 16 or 21, the session comes back as it was handed in, beside zeros.
#[unsafe(no_mangle)]
pub extern "C" fn dimkhoros_prover_commit(
    sheet: &[u8],
    session: ProverSession,
    nonce: &[u32; 8],
) -> ProverAnswer
    ensures { result ≡ prover_answer session (commit sheet.now (prover_of session) nonce.now) }
{
    prover_session::commit(sheet, session, *nonce)
}

// Responds to a challenge in a Committed session, with a witness: the response is answered, the nonce set to zeros and the
// commitment kept and listed. Where it is refused, with 2 to 11, 15 to 17, 21, 32 or 33, the session comes back as it was handed in,
// beside zeros.
#[unsafe(no_mangle)]
pub extern "C" fn dimkhoros_prover_respond(
    sheet: &[u8],
    session: ProverSession,
    challenge: u32,
    witness: &[u32; 8],
) -> ProverAnswer
    ensures { result ≡ prover_answer session (respond sheet.now (prover_of session) challenge witness.now) }
{
    prover_session::respond(sheet, session, challenge, *witness)
}

// Drops a session that is New or Committed: the nonce is set to zeros and the commitment kept. Any other is refused with 21
// and comes back as it was handed in. No values are answered, zeros stand there.
#[unsafe(no_mangle)]
pub extern "C" fn dimkhoros_prover_drop(session: ProverSession) -> ProverAnswer
    ensures { result ≡ prover_answer session (drop_session (prover_of session)) }
{
    prover_session::drop_session(session)
}

// Saves the state, nonce and commitment of a session, in whatever state, under a name from 0 to 7, in place of what was saved there.
// Any other name is refused with 34, and the session comes back as it was handed in. No values are answered, zeros stand there.
#[unsafe(no_mangle)]
pub extern "C" fn dimkhoros_prover_save(session: ProverSession, name: u32) -> ProverAnswer
    ensures { result ≡ prover_answer session (save (prover_of session) name) }
{
    prover_session::save(session, name)
}

// Brings the state, nonce and commitment back that were saved under a name, and changes nothing else. A name of 8 or more, and one
// that was never saved, is refused with 34, and the session comes back as it was handed in. No values are answered, zeros stand there.
#[unsafe(no_mangle)]
pub extern "C" fn dimkhoros_prover_return(session: ProverSession, name: u32) -> ProverAnswer
    ensures { result ≡ prover_answer session (return_to (prover_of session) name) }
{
    prover_session::return_to(session, name)
}
