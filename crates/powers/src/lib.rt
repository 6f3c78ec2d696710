// Products and powers modulo a 32-bit number m by Barrett's method, four numbers side by side, so that the processor need not
// wait for one product before it begins the next; and powers of whole numbers beside a bound.
#![tactic(auto)]

mod arrays; // arrays.rt: powers and products of the places of an array
mod barrett; // barrett.rt: a modulus with its reciprocal, and one product
mod bound; // bound.rt: whether a power is above a bound
mod digits; // digits.rt: the digits of an exponent
mod eight; // eight.rt: eight powers
mod four; // four.rt: four products and four powers

pub use arrays::{mul_powers, powers, products};
pub use barrett::Barrett;
pub use bound::{power_exceeds, power_of_two_less_one};
pub use digits::bit_length;
pub use four::{Four, side_by_side};
