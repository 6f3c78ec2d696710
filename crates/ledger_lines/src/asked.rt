// What is asked of one line (refusals 35, 36 and 14 to 16): only what its kind uses.
// That the modulus is above 0 is a clause and no type: C hands in a `Base` of any numbers.
// A kind is a number here, since a line that C hands in may have any.
ghost use Rattle.std.specs.Prelude.{◌≡◌, ◌<◌};
ghost use Rattle.sigma.specs.Element.{some_non_coordinate};
ghost use Rattle.ledgers.specs.Check.{bad_elements, bad_line_challenge, bad_line_kind, bad_response, not_above};
ghost use Rattle.ledgers.specs.Refusals.{product_header};

use crate::kinds::Kind;
use crate::shared::product_header;
use ledgers::{Base, Line};
use modular::{is_element, some_non_element};

// Whether a kind is none of 1, 2 and 3.
pub fn bad_kind(kind: u32) -> bool
    ensures { result ≡ bad_line_kind kind }
{
    Kind::try_from(kind).is_err()
}

// Whether line i is a sum or a product and names a line that is not above it.
pub fn not_above(i: usize, kind: u32, first: u32, second: u32) -> bool
    ensures { result ≡ not_above i kind first second }
{
    match Kind::try_from(kind) {
        Ok(Kind::Sum | Kind::Product) => first as usize >= i || second as usize >= i,
        _ => false,
    }
}

// Whether a commitment that the line stores, or a value of its t, is no group element.
pub fn bad_elements(base: Base, line: &Line) -> bool
    requires { 0 < base.modulus }
    ensures { result ≡ bad_elements base line.now }
{
    let h = product_header(base);
    match Kind::try_from(line.kind) {
        Ok(Kind::Commitment) => !is_element(h, line.commitment),
        Ok(Kind::Product) => some_non_element(
            h,
            [line.commitment, line.t[0], line.t[1], 0, 0, 0, 0, 0],
            3,
        ),
        _ => false,
    }
}

// Whether a challenge that is used is K or more.
pub fn bad_challenge(base: Base, kind: u32, challenge: u32) -> bool
    ensures { result ≡ bad_line_challenge base kind challenge }
{
    match Kind::try_from(kind) {
        Ok(Kind::Product) => challenge >= base.challenges,
        _ => false,
    }
}

// Whether one of three slots is q or more.
pub fn some_high_slot(base: Base, slots: [u32; 3]) -> bool
    ensures { result ≡ some_non_coordinate (product_header base) 3 slots }
{
    slots.iter().any(|slot| *slot >= base.order)
}

// Whether a slot of a product line's response is q or more.
pub fn bad_response(base: Base, line: &Line) -> bool
    ensures { result ≡ bad_response base line.now }
{
    match Kind::try_from(line.kind) {
        Ok(Kind::Product) => some_high_slot(base, line.response),
        _ => false,
    }
}
