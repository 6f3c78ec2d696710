// The maker of sheets from linear forms (02, card 10): it puts the sheet at the start of the lent buffer and changes no byte
// after it; a refused call changes no byte.
// C reads the answers, so a refusal stands in them as a number.
#![tactic(auto)]

mod entries; // entries.rt: the entries that generators and coefficients give
mod tests; // tests.rt: the tests of the counts, the coefficients and the generators

ghost use Rattle.std.specs.Prelude.{◌≡◌};
ghost use Rattle.refusals.specs.Number.{written};
ghost use Rattle.linear_forms.specs.Linear.{make_linear};
ghost use Rattle.linear_forms.specs.LinearPlan.{linear_plan};

use crate::entries::entries_of;
use crate::tests::test_plan;
use instance::test_header;
use refusals::{Refusal, written};
use types::{Header, Written};
use writer::{eight_of, encode_tested};

// Writes the sheet of a plan, and gives its length or why the plan is refused.
fn try_make(
    modulus: u32,
    order: u32,
    challenges: u32,
    rows: u32,
    columns: u32,
    generators: &[u32],
    coefficients: &[u32],
    statement: &[u32],
    buffer: &mut [u8],
) -> Result<usize, Refusal>
    ensures answer { written result ≡
        (make_linear (linear_plan modulus order challenges rows columns generators.now coefficients.now
        statement.now) buffer.old).answer }
    ensures left { buffer.new ≡
        (make_linear (linear_plan modulus order challenges rows columns generators.now coefficients.now
        statement.now) buffer.old).buffer }
{
    let h = Header {
        kind: 1,
        modulus,
        order,
        challenges,
        rows,
        columns,
    };
    test_header(h)?;
    test_plan(h, generators, coefficients, statement)?;
    let entries = entries_of(h, generators, coefficients);
    encode_tested(h, entries, eight_of(statement), buffer)
}

// The maker of sheets from linear forms: writes the sheet of kind 1 whose entry (i, j) is the product over the generators of
// generator^coefficient mod m, and answers its length, or the number that it is refused with, 5, 6, 7, 8, 29, 30, 10, 11 or 22.
// The coefficients stand by row, then generator, then column. A generator is tested whether or not a coefficient uses it. After
// that the second writer goes on; its own 10 cannot apply, since products of powers of group elements are group elements.
pub fn make(
    modulus: u32,
    order: u32,
    challenges: u32,
    rows: u32,
    columns: u32,
    generators: &[u32],
    coefficients: &[u32],
    statement: &[u32],
    buffer: &mut [u8],
) -> Written
    ensures answer { result ≡
        (make_linear (linear_plan modulus order challenges rows columns generators.now coefficients.now
        statement.now) buffer.old).answer }
    ensures left { buffer.new ≡
        (make_linear (linear_plan modulus order challenges rows columns generators.now coefficients.now
        statement.now) buffer.old).buffer }
{
    written(try_make(
        modulus,
        order,
        challenges,
        rows,
        columns,
        generators,
        coefficients,
        statement,
        buffer,
    ))
}
