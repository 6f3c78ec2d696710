// The tests of what a call of Peggy's session brings by its side, and of what a session holds (02, card 4; refusals 16, 17 and
// 21).
// The bounds of fixed fields are clauses and no type, since a `Sheet` would ask more of callers.
ghost use Rattle.std.specs.Prelude.{◌≡◌, List, ℕ};
ghost use Rattle.rules.specs.Rule.{lowest};
ghost use Rattle.sigma.specs.Instance.{instance_with};
ghost use Rattle.refusals.specs.Number.{refused_with};
ghost use Rattle.instance.specs.Values.{values_of};
ghost use Rattle.disjunctions.specs.Prover.{unfit_or};
ghost use Rattle.or_judge.specs.Values.{FewPlaces};
ghost use Rattle.or_session.specs.Sides.{bad_slots, witness_rules};

use crate::sides::{own, side_commitment};
use comparison::differ;
use disjunctions::OrProver;
use image::image;
use instance::Sheet;
use modular::some_non_coordinate;
use pairs::Pair;
use refusals::Refusal;
use types::Header;

// Whether some slot of the nonce is no domain slot of the side's sheet, or some slot of the simulated response none of the other.
pub fn bad_slots(
    first: Header,
    second: Header,
    side: u32,
    nonce: [u32; 8],
    response: [u32; 8],
) -> bool
    requires { FewPlaces first × FewPlaces second }
    ensures { (entries entries' : List (List ℕ)) (z z' : List ℕ)
        → result ≡ bad_slots (instance_with first entries z) (instance_with second entries' z') side nonce response }
{
    let mine = own(side, first, second);
    let yours = own(side, second, first);
    some_non_coordinate(mine, nonce, mine.columns as usize)
        || some_non_coordinate(yours, response, yours.columns as usize)
}

// Tests a witness by one sheet, which is refused with 16 for a slot that is no domain slot, 17 where its image is not the statement.
pub fn test_witness(sheet: &Sheet, witness: [u32; 8]) -> Result<(), Refusal>
    ensures { refused_with result ≡ lowest (witness_rules (values_of sheet.now) witness) }
{
    let h = sheet.header;
    let entries = sheet.entries;
    let z = sheet.statement;
    if some_non_coordinate(h, witness, h.columns as usize) {
        return Err(Refusal::Slot);
    }
    if differ(image(h, entries, witness), z, h.rows as usize) {
        return Err(Refusal::Witness);
    }
    Ok(())
}

// Whether what a session holds does not fit the sheets: the side is neither 0 nor 1, a slot is no domain slot of its sheet, the
// challenge is K or more, or the two commitments are not made of them in all eight places.
pub fn unfit(pair: &Pair, session: OrProver) -> bool
    ensures { result ≡ unfit_or (values_of pair.now.first) (values_of pair.now.second) session }
{
    let side = session.side;
    let k = session.nonce;
    let r = session.response;
    let d = session.challenge;
    let t0 = session.commitment0;
    let t1 = session.commitment1;
    if side > 1 {
        return true;
    }
    if bad_slots(pair.first.header, pair.second.header, side, k, r) {
        return true;
    }
    if d >= pair.first.header.challenges {
        return true;
    }
    if differ(side_commitment(&pair.first, side == 0, k, d, r), t0, 8) {
        return true;
    }
    differ(side_commitment(&pair.second, side != 0, k, d, r), t1, 8)
}
