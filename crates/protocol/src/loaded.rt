// Judging a round and simulating a commitment on loaded values (01, "A round"; refusals 14 to 16).
ghost use Rattle.std.specs.Prelude.{◌≡◌, List, ℕ, ◌≤◌, ◌<◌};
ghost use Rattle.lists.specs.Places.{pad8, places};
ghost use Rattle.rules.specs.Call.{number_of};
ghost use Rattle.sigma.specs.Judge.{judging, judge_loaded};
ghost use Rattle.sigma.specs.Reads.{round_of};
ghost use Rattle.sigma.specs.Simulator.{simulated, simulate_loaded};
ghost use Rattle.sigma.specs.Instance.{instance_with};
ghost use Rattle.refusals.specs.Number.{computed, refused_with};
ghost use Rattle.instance.specs.Values.{values_of};

use image::{image, row_image, verdict};
use instance::Sheet;
use modular::{mul_mod, some_non_coordinate, some_non_element};
use negatives::{mul_negative_powers, negative_power};
use powers::side_by_side;
use refusals::Refusal;
use types::{Header, Round, Verdict};

// Tests a round, which is refused with 14 for a commitment value that is no group element, 15 for a challenge of K or more, 16 for a
// response slot that is no domain slot. The bounds of fixed fields are clauses and no type, since a `Sheet` would ask more of callers.
pub fn test_round(
    h: Header,
    commitment: [u32; 8],
    challenge: u32,
    response: [u32; 8],
) -> Result<(), Refusal>
    requires { (0 < h.modulus) × (h.rows ≤ 8) × (h.columns ≤ 8) }
    ensures { (entries : List (List ℕ)) (statement : List ℕ)
        → refused_with result ≡ number_of (judging (instance_with h entries statement) (round_of commitment challenge response)) }
{
    let rows = h.rows as usize;
    let columns = h.columns as usize;
    if some_non_element(h, commitment, rows) {
        return Err(Refusal::Commitment);
    }
    if challenge >= h.challenges {
        return Err(Refusal::Challenge);
    }
    if some_non_coordinate(h, response, columns) {
        return Err(Refusal::Slot);
    }
    Ok(())
}

// The verdict on a round: accepted, rejected with all rows whose two sides differ, or refused with 14 to 16. `judge` and the marker
// take these steps themselves, since a verdict that is handed on once more makes a round of one row a fifth slower.
pub fn judge_loaded(sheet: &Sheet, round: Round) -> Verdict
    ensures { result ≡ judge_loaded (values_of sheet.now) round }
{
    let t = round.commitment;
    let r = round.response;
    match test_round(sheet.header, t, round.challenge, r) {
        Ok(()) => verdict(sheet, t, round.challenge, r),
        Err(refusal) => Verdict::Refused(refusal.number()),
    }
}

// The simulated commitment for challenge c and response r: the image of r times the statement by -c, a value for each row,
// side by side where that is worth while.
pub fn simulated(sheet: &Sheet, c: u32, r: [u32; 8]) -> [u32; 8]
    requires { c < sheet.now.header.challenges }
    ensures { result ≡ pad8 0 (simulated (values_of sheet.now) c (places sheet.now.header.columns r)) }
{
    let h = sheet.header;
    let entries = sheet.entries;
    let statement = sheet.statement;
    let rows = h.rows as usize;
    if side_by_side(rows, h.modulus) {
        return mul_negative_powers(h, image(h, entries, r), statement, rows, c);
    }
    let mut values = [0u32; 8];
    for i in 0..rows {
        values[i] = mul_mod(
            row_image(h, entries, r, i),
            negative_power(h, statement[i], c),
            h.modulus,
        );
    }
    values
}

// The simulated commitment for challenge c and response r, refused with 15 for a challenge of K or more, 16 for a response
// slot that is no domain slot.
pub fn simulate_loaded(sheet: &Sheet, c: u32, r: [u32; 8]) -> Result<[u32; 8], Refusal>
    ensures { computed result ≡ simulate_loaded (values_of sheet.now) c r }
{
    let h = sheet.header;
    if c >= h.challenges {
        return Err(Refusal::Challenge);
    }
    if some_non_coordinate(h, r, h.columns as usize) {
        return Err(Refusal::Slot);
    }
    Ok(simulated(sheet, c, r))
}
