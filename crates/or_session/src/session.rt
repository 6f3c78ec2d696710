// Peggy's session of the OR proof where no sheet is taken (02, card 4): a new session, the answer of a call, a wiped
// session, and dropping.
// The records are those that the laws speak of, in which a refusal is its number.
ghost use Rattle.std.specs.Prelude.{◌≡◌};
ghost use Rattle.lists.specs.Places.{zeros8};
ghost use Rattle.disjunctions.specs.Prover.{drop_or, new_or_prover, wiped_or};
ghost use Rattle.or_session.specs.Sides.{stepped};

use disjunctions::{OrProver, OrStep};
use refusals::Refusal;
use types::ProverPhase;

// The answer of a refused call: the number, the session as it was and zeros.
pub fn refused(session: OrProver, number: u32) -> OrStep
    ensures { result ≡ record { session = session; values0 = zeros8; values1 = zeros8; challenge0 = 0; refusal = number } }
{
    let zeros = [0u32; 8];
    OrStep {
        session,
        values0: zeros,
        values1: zeros,
        challenge0: 0,
        refusal: number,
    }
}

// The answer of a call on a session: the step that it takes, or that of a refused call.
pub fn stepped(session: OrProver, outcome: Result<OrStep, Refusal>) -> OrStep
    ensures { result ≡ stepped session outcome }
{
    match outcome {
        Ok(step) => step,
        Err(refusal) => refused(session, refusal.number()),
    }
}

// A session in the state phase where all that is held is set to zeros; both commitments are kept.
pub fn wiped(session: OrProver, phase: ProverPhase) -> OrProver
    ensures { result ≡ wiped_or phase session.commitment0 session.commitment1 }
{
    let OrProver {
        commitment0,
        commitment1,
        ..
    } = session;
    OrProver {
        commitment0,
        commitment1,
        phase,
        ..new()
    }
}

// A new session: it is New and holds zeros.
pub fn new() -> OrProver
    ensures { result ≡ new_or_prover }
{
    let zeros = [0u32; 8];
    OrProver {
        nonce: zeros,
        response: zeros,
        commitment0: zeros,
        commitment1: zeros,
        challenge: 0,
        side: 0,
        phase: ProverPhase::New,
    }
}

// Drops a session that is New or Committed: all that it holds but both commitments is set to zeros. Any other is refused with 21
// and comes back unchanged. No values are answered, zeros stand there.
pub fn drop_session(session: OrProver) -> OrStep
    ensures { result ≡ drop_or session }
{
    let phase = session.phase;
    let zeros = [0u32; 8];
    match phase {
        ProverPhase::New | ProverPhase::Committed => OrStep {
            session: wiped(session, ProverPhase::Dropped),
            values0: zeros,
            values1: zeros,
            challenge0: 0,
            refusal: 0,
        },
        ProverPhase::Answered | ProverPhase::Dropped => {
            refused(session, Refusal::Session.number())
        }
    }
}
