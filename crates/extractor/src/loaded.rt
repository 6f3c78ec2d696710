// Extracting a witness from two rounds on loaded values (01, "A round"; refusals 14 to 16 of both rounds, then 18 to 20).
ghost use Rattle.std.specs.Prelude.{◌≡◌, List, ℕ, ◌≤◌, ◌<◌, pos, neg_ℤ};
ghost use Rattle.lists.specs.Places.{pad8};
ghost use Rattle.numbers.specs.Inverse.{inverse};
ghost use Rattle.rules.specs.Rule.{lowest};
ghost use Rattle.sigma.specs.Extractor.{slot_formula, formula, extract_loaded};
ghost use Rattle.sigma.specs.Instance.{instance_with};
ghost use Rattle.refusals.specs.Number.{computed, refused_with};
ghost use Rattle.instance.specs.Values.{values_of};
ghost use Rattle.extractor.specs.Coefficients.{left_coefficient, SlotFits, RootsFit, WitnessFits, slot_formulas};
ghost use Rattle.extractor.specs.Rules.{rules_of_pair};

use comparison::differ;
use image::verdict;
use instance::Sheet;
use modular::{inverse, mul_mod, pow_mod, some_non_coordinate, some_non_element, sub_mod};
use negatives::{inverses, mul_negative_powers, negative_power};
use powers::{powers, products, side_by_side};
use refusals::Refusal;
use types::{Header, Round, Verdict};

// Tests two rounds, which are refused with 14 to 16, 18 or 19. Each of 14 to 16 is asked of both rounds before the next; 18 is for
// commitments that differ, 19 for equal challenges. It reads fixed fields alone, so it takes a `Header` with its bounds, and not a
// whole `Sheet`.
fn test_pair(h: Header, first: Round, second: Round) -> Result<(), Refusal>
    requires { (0 < h.modulus) × (h.rows ≤ 8) × (h.columns ≤ 8) }
    ensures { (entries : List (List ℕ)) (statement : List ℕ)
        → refused_with result ≡ lowest (rules_of_pair (instance_with h entries statement) first second) }
{
    let t1 = first.commitment;
    let t2 = second.commitment;
    let r1 = first.response;
    let r2 = second.response;
    let rows = h.rows as usize;
    let columns = h.columns as usize;
    if some_non_element(h, t1, rows) {
        return Err(Refusal::Commitment);
    }
    if some_non_element(h, t2, rows) {
        return Err(Refusal::Commitment);
    }
    if first.challenge >= h.challenges {
        return Err(Refusal::Challenge);
    }
    if second.challenge >= h.challenges {
        return Err(Refusal::Challenge);
    }
    if some_non_coordinate(h, r1, columns) {
        return Err(Refusal::Slot);
    }
    if some_non_coordinate(h, r2, columns) {
        return Err(Refusal::Slot);
    }
    if differ(t1, t2, rows) {
        return Err(Refusal::OtherCommitment);
    }
    if first.challenge == second.challenge {
        return Err(Refusal::SameChallenge);
    }
    Ok(())
}

// A slot of the formula with the exponents -a and b: in kind 1 b (r - s) mod q, in kind 2 z^(-a) (r/s)^b mod m.
fn witness_slot(h: Header, z: u32, a: u32, b: u32, r: u32, s: u32) -> u32
    requires { SlotFits h z a r s }
    ensures { result ≡ slot_formula h z (neg_ℤ (pos a)) (pos b) r s }
{
    if h.kind == 1 {
        return mul_mod(b, sub_mod(r, s, h.order), h.order);
    }
    let quotient = mul_mod(r, inverse(s, h.modulus), h.modulus);
    mul_mod(
        negative_power(h, z, a),
        pow_mod(quotient, b, h.modulus),
        h.modulus,
    )
}

// The slots of the formula in kind 2 side by side.
fn root_slots(h: Header, statement: [u32; 8], a: u32, b: u32, r: [u32; 8], s: [u32; 8]) -> [u32; 8]
    requires { RootsFit h statement a s }
    ensures { result ≡ pad8 0 (slot_formulas h statement a b r s) }
{
    let columns = h.columns as usize;
    let quotients = products(r, inverses(s, columns, h.modulus), columns, h.modulus);
    let raised = powers(quotients, columns, b, h.modulus);
    mul_negative_powers(h, raised, statement, columns, a)
}

// The witness from the responses r and s to two challenges, the first larger by delta: the formula with the exponents -a
// and b, where b inverts delta modulo ℓ, and delta b is ℓ a + 1.
fn witness(h: Header, statement: [u32; 8], delta: u32, r: [u32; 8], s: [u32; 8]) -> [u32; 8]
    requires { WitnessFits h statement delta r s }
    ensures { (entries : List (List ℕ)) → result ≡ pad8 0 (formula (instance_with h entries statement)
        (neg_ℤ (pos (left_coefficient h.order delta))) (pos (inverse h.order delta)) r s) }
{
    let b = inverse(delta, h.order);
    let a = (delta as u64 * b as u64 / h.order as u64) as u32;
    let columns = h.columns as usize;
    if h.kind != 1 {
        if side_by_side(columns, h.modulus) {
            return root_slots(h, statement, a, b, r, s);
        }
    }
    let mut values = [0u32; 8];
    for j in 0..columns {
        values[j] = witness_slot(h, statement[j], a, b, r[j], s[j]);
    }
    values
}

// The witness from two accepted rounds with one commitment and different challenges, or the refusal; a round that is not accepted is
// 20. The round with the larger challenge is taken first: the witness is the same.
pub fn extract_loaded(sheet: &Sheet, first: Round, second: Round) -> Result<[u32; 8], Refusal>
    ensures { computed result ≡ extract_loaded (values_of sheet.now) first second }
{
    let h = sheet.header;
    test_pair(h, first, second)?;
    let t1 = first.commitment;
    let t2 = second.commitment;
    let r1 = first.response;
    let r2 = second.response;
    let Verdict::Accepted = verdict(sheet, t1, first.challenge, r1) else {
        return Err(Refusal::Rejected);
    };
    let Verdict::Accepted = verdict(sheet, t2, second.challenge, r2) else {
        return Err(Refusal::Rejected);
    };
    let statement = sheet.statement;
    if first.challenge > second.challenge {
        return Ok(witness(h, statement, first.challenge - second.challenge, r1, r2));
    }
    Ok(witness(h, statement, second.challenge - first.challenge, r2, r1))
}
