// Committing and responding in the OR proof on two sheets that have loaded (02, card 4; refusals 15 to 17 and 21). What a call brings
// is tested before the session.
// A side is a number, as C hands it in: any but 0 is side 1.
ghost use Rattle.std.specs.Prelude.{List, ◌≡◌, ℕ};
ghost use Rattle.rules.specs.Call.{answer, number_of};
ghost use Rattle.sigma.specs.Instance.{instance_with};
ghost use Rattle.refusals.specs.Number.{refused_with};
ghost use Rattle.instance.specs.Values.{values_of};
ghost use Rattle.disjunctions.specs.Prover.{committing_or, responding_or};
ghost use Rattle.or_judge.specs.Values.{FewPlaces};
ghost use Rattle.or_session.specs.Sides.{stepped};

use comparison::first_places;
use disjunctions::{OrProver, OrStep};
use or_session::{bad_slots, own, side_commitment, side_response, test_witness, unfit, wiped};
use pairs::{Pair, other_challenge};
use refusals::Refusal;
use types::{Header, ProverPhase};

// Tests what committing is given, which is refused with 15 for a simulated challenge of K or more, 16 for a slot of the nonce or of
// the simulated response that is no domain slot of its sheet, 21 in any state but New. It reads fixed fields alone, so it takes two
// `Header`s with their bounds, and not two whole `Sheet`s.
fn test_commit(
    first: Header,
    second: Header,
    session: OrProver,
    side: u32,
    nonce: [u32; 8],
    challenge: u32,
    response: [u32; 8],
) -> Result<(), Refusal>
    requires { FewPlaces first × FewPlaces second }
    ensures { (entries entries' : List (List ℕ)) (z z' : List ℕ)
        → refused_with result
        ≡ number_of (committing_or (instance_with first entries z) (instance_with second entries' z') session side nonce challenge
        response) }
{
    if challenge >= first.challenges {
        return Err(Refusal::Challenge);
    }
    if bad_slots(first, second, side, nonce, response) {
        return Err(Refusal::Slot);
    }
    let phase = session.phase;
    let ProverPhase::New = phase else {
        return Err(Refusal::Session);
    };
    Ok(())
}

// Commits a New session: what is brought and both commitments are stored, zeros beyond them, and both commitments are answered. It is
// refused with 15, 16 or 21.
pub fn commit_loaded(
    pair: &Pair,
    session: OrProver,
    side: u32,
    nonce: [u32; 8],
    challenge: u32,
    response: [u32; 8],
) -> Result<OrStep, Refusal>
    ensures { stepped session result
        ≡ answer (committing_or (values_of pair.now.first) (values_of pair.now.second) session side nonce challenge response) }
{
    let first = pair.first.header;
    let second = pair.second.header;
    test_commit(first, second, session, side, nonce, challenge, response)?;
    let mine = own(side, first, second);
    let yours = own(side, second, first);
    let t0 = side_commitment(&pair.first, side == 0, nonce, challenge, response);
    let t1 = side_commitment(&pair.second, side != 0, nonce, challenge, response);
    Ok(OrStep {
        session: OrProver {
            nonce: first_places(nonce, mine.columns as usize),
            response: first_places(response, yours.columns as usize),
            commitment0: t0,
            commitment1: t1,
            challenge,
            side: own(side, 0, 1),
            phase: ProverPhase::Committed,
        },
        values0: t0,
        values1: t1,
        challenge0: 0,
        refusal: 0,
    })
}

// Tests what responding is given, which is refused with 15 for a challenge of K or more, 16 and 17 for a witness by the held side's
// sheet, 21 in any state but Committed or for held values that do not fit.
fn test_response(
    pair: &Pair,
    session: OrProver,
    challenge: u32,
    witness: [u32; 8],
) -> Result<(), Refusal>
    ensures { refused_with result
        ≡ number_of (responding_or (values_of pair.now.first) (values_of pair.now.second) session challenge witness) }
{
    if challenge >= pair.first.header.challenges {
        return Err(Refusal::Challenge);
    }
    let mine = own(session.side, &pair.first, &pair.second);
    test_witness(mine, witness)?;
    let phase = session.phase;
    let ProverPhase::Committed = phase else {
        return Err(Refusal::Session);
    };
    if unfit(pair, session) {
        return Err(Refusal::Session);
    }
    Ok(())
}

// Responds to a challenge in a Committed session, with a witness of the held side's sheet: that side answers the challenge that
// is left, the other the simulated one, and all that is held but both commitments is set to zeros. It is refused with 15 to 17 or 21.
pub fn respond_loaded(
    pair: &Pair,
    session: OrProver,
    challenge: u32,
    witness: [u32; 8],
) -> Result<OrStep, Refusal>
    ensures { stepped session result
        ≡ answer (responding_or (values_of pair.now.first) (values_of pair.now.second) session challenge witness) }
{
    test_response(pair, session, challenge, witness)?;
    let side = session.side;
    let k = session.nonce;
    let r = session.response;
    let d = other_challenge(pair.first.header.challenges, challenge, session.challenge);
    Ok(OrStep {
        session: wiped(session, ProverPhase::Answered),
        values0: side_response(pair.first.header, side == 0, k, d, witness, r),
        values1: side_response(pair.second.header, side != 0, k, d, witness, r),
        challenge0: own(side, d, session.challenge),
        refusal: 0,
    })
}
