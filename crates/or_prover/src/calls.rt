// The calls on two sheets' bytes (02, card 4): each loads both sheets, and the number of a refused pair is its answer.
// C reads the answers, so a refusal stands in them as a number.
ghost use Rattle.std.specs.Prelude.{◌≡◌};
ghost use Rattle.disjunctions.specs.Prover.{commit_or, respond_or};
ghost use Rattle.or_session.specs.Sides.{stepped};

use crate::loaded::{commit_loaded, respond_loaded};
use disjunctions::{OrProver, OrStep};
use or_session::stepped;
use pairs::Pair;
use refusals::Refusal;

// The step of committing, refused with 2 to 11 of either sheet, 26, 15, 16 or 21.
fn committed(
    first: &[u8],
    second: &[u8],
    session: OrProver,
    side: u32,
    nonce: [u32; 8],
    challenge: u32,
    response: [u32; 8],
) -> Result<OrStep, Refusal>
    ensures { stepped session result ≡ commit_or first.now second.now session side nonce challenge response }
{
    let pair = Pair::load(first, second)?;
    commit_loaded(&pair, session, side, nonce, challenge, response)
}

// Commits a New session with the side that is known, a nonce of it, and a simulated challenge and response of the other: these
// and both commitments are stored, and both commitments answered. Where it is refused, with 2 to 11 of either sheet, 26, 15, 16
// or 21, the session comes back unchanged beside zeros.
pub fn commit(
    first: &[u8],
    second: &[u8],
    session: OrProver,
    side: u32,
    nonce: [u32; 8],
    challenge: u32,
    response: [u32; 8],
) -> OrStep
    ensures { result ≡ commit_or first.now second.now session side nonce challenge response }
{
    stepped(
        session,
        committed(first, second, session, side, nonce, challenge, response),
    )
}

// The step of responding, refused with 2 to 11 of either sheet, 26, 15 to 17 or 21.
fn responded(
    first: &[u8],
    second: &[u8],
    session: OrProver,
    challenge: u32,
    witness: [u32; 8],
) -> Result<OrStep, Refusal>
    ensures { stepped session result ≡ respond_or first.now second.now session challenge witness }
{
    let pair = Pair::load(first, second)?;
    respond_loaded(&pair, session, challenge, witness)
}

// Responds to a challenge in a Committed session, with a witness of the held side's sheet: both responses and the first side's
// challenge are answered, and all that is held but both commitments is set to zeros. Where it is refused, with 2 to 11 of either
// sheet, 26, 15 to 17 or 21, the session comes back unchanged beside zeros.
pub fn respond(
    first: &[u8],
    second: &[u8],
    session: OrProver,
    challenge: u32,
    witness: [u32; 8],
) -> OrStep
    ensures { result ≡ respond_or first.now second.now session challenge witness }
{
    stepped(
        session,
        responded(first, second, session, challenge, witness),
    )
}
