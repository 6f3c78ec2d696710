// The calls on Peggy's session of the OR proof (02, card 4).
ghost use Rattle.std.specs.Prelude.{◌≡◌};
ghost use Rattle.disjunctions.specs.Prover.{new_or_prover, commit_or, respond_or, drop_or};
ghost use Rattle.or_crossing.specs.Provers.{or_prover_of, or_session, or_answer};

use disjunctions::OrProver;
use or_crossing::{OrAnswer, OrSession, or_answer};

// A new session: New, with zeros.
#[unsafe(no_mangle)]
pub extern "C" fn dimkhoros_or_prover_new() -> OrSession
    ensures { result ≡ or_session new_or_prover }
{
    OrSession::from(or_session::new())
}

// Commits a New session to a nonce of the side that she knows, 0 or else 1, and to a simulated challenge and response of the
// other: they are stored with both commitments, and these are answered. Where it is refused, with 2 to 11 of either sheet, 26, 15,
// 16 or 21, the session comes back as it was handed in, beside zeros.
#[unsafe(no_mangle)]
pub extern "C" fn dimkhoros_or_prover_commit(
    first: &[u8],
    second: &[u8],
    session: OrSession,
    side: u32,
    nonce: &[u32; 8],
    challenge: u32,
    response: &[u32; 8],
) -> OrAnswer
    ensures { result ≡ or_answer session (commit_or first.now second.now (or_prover_of session) side
        nonce.now challenge response.now) }
{
    or_answer(
        session,
        or_prover::commit(
            first,
            second,
            OrProver::from(session),
            side,
            *nonce,
            challenge,
            *response,
        ),
    )
}

// Responds to a challenge in a Committed session, with a witness of the side that she knows: both responses and c0 are answered,
// and all but the commitments is set to zeros. Where it is refused, with 2 to 11 of either sheet, 26, 15 to 17 or 21, the session
// comes back as it was handed in, beside zeros.
#[unsafe(no_mangle)]
pub extern "C" fn dimkhoros_or_prover_respond(
    first: &[u8],
    second: &[u8],
    session: OrSession,
    challenge: u32,
    witness: &[u32; 8],
) -> OrAnswer
    ensures { result ≡ or_answer session (respond_or first.now second.now (or_prover_of session) challenge
        witness.now) }
{
    or_answer(
        session,
        or_prover::respond(first, second, OrProver::from(session), challenge, *witness),
    )
}

// Drops a session that is New or Committed: all but the commitments is set to zeros. Any other is refused with 21 and comes back
// as it was handed in. No values are answered, zeros stand there.
#[unsafe(no_mangle)]
pub extern "C" fn dimkhoros_or_prover_drop(session: OrSession) -> OrAnswer
    ensures { result ≡ or_answer session (drop_or (or_prover_of session)) }
{
    or_answer(session, or_session::drop_session(OrProver::from(session)))
}
