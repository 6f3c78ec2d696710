// The tests of a plan (02, card 10): its counts (29), its coefficients (30) and its generators (10).
// These read fixed fields alone, so they take a `Header` with its bounds, and not a whole `Sheet`.
ghost use Rattle.std.specs.Prelude.{◌≤◌, [], ◌≡◌};
ghost use Rattle.refusals.specs.Number.{refused_with};
ghost use Rattle.rules.specs.Rule.{lowest};
ghost use Rattle.sigma.specs.Admission.{header_rules};
ghost use Rattle.linear_forms.specs.Linear.{bad_coefficient, bad_counts};
ghost use Rattle.linear_maker.specs.Plan.{plan_of, plan_rules};

use modular::some_non_element;
use refusals::Refusal;
use types::Header;
use writer::eight_of;

// Whether there are not 1 to 8 generators, not s × generators × n coefficients, or not s statement values. The product is formed
// only after the count of generators is tested.
fn bad_counts(h: Header, generators: &[u32], coefficients: &[u32], statement: &[u32]) -> bool
    requires { (h.rows ≤ 8) × (h.columns ≤ 8) }
    ensures { result ≡ bad_counts (plan_of h generators.now coefficients.now statement.now) }
{
    let rows = h.rows as usize;
    let columns = h.columns as usize;
    let count = generators.len();
    if count < 1 {
        return true;
    }
    if count > 8 {
        return true;
    }
    if coefficients.len() != rows * count * columns {
        return true;
    }
    statement.len() != rows
}

// Whether some coefficient is q or more.
fn bad_coefficient(h: Header, coefficients: &[u32]) -> bool
    ensures { result ≡ bad_coefficient (plan_of h [] coefficients.now []) }
{
    coefficients.iter().any(|c| *c >= h.order)
}

// Tests a plan with fixed fields that are not refused, which is refused with 29, 30 or 10.
pub fn test_plan(
    h: Header,
    generators: &[u32],
    coefficients: &[u32],
    statement: &[u32],
) -> Result<(), Refusal>
    requires { lowest (header_rules h) ≡ 0 }
    ensures { refused_with result ≡ lowest (plan_rules h generators.now coefficients.now statement.now) }
{
    if bad_counts(h, generators, coefficients, statement) {
        return Err(Refusal::Plan);
    }
    if bad_coefficient(h, coefficients) {
        return Err(Refusal::Coefficient);
    }
    if some_non_element(h, eight_of(generators), generators.len()) {
        return Err(Refusal::Entry);
    }
    Ok(())
}
