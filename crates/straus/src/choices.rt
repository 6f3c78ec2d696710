// Straus's method by tables: the products of each choice among four columns are made once, so that a turn takes eight columns by
// two products, whichever bits are set, and has no branch.
ghost use Rattle.std.specs.Prelude.{◌≡◌, ◌≤◌, ◌<◌};
ghost use Rattle.powers.specs.Places.{lanes};
ghost use Rattle.straus.specs.Choices.{Choices, choice_of, digit_of, pair_of};
ghost use Rattle.straus.specs.MultiPowers.{lane_of, multi_powers};

use crate::largest;
use powers::{Barrett, Four, bit_length};

// The products of each choice of two columns: bit 0 of a place takes x, bit 1 takes y.
fn pairs(x: Four, y: Four, by: Barrett) -> [Four; 4]
    ensures { Choices by.modulus 4 (pair_of x y) result }
{
    [Four::splat(1 % by.modulus), x, y, x.mul(y, by)]
}

// The products of each choice of the four columns from index at on: bit l of a place takes column at + l.
fn choices(columns: [Four; 8], at: usize, by: Barrett) -> [Four; 16]
    requires { at ≤ 4 }
    ensures { Choices by.modulus 16 (choice_of columns at) result }
{
    let low = pairs(columns[at], columns[at + 1], by);
    let high = pairs(columns[at + 2], columns[at + 3], by);
    let mut table = [low[0]; 16];
    // Place by place: three stores are as plain as a copy, and the law of each place is one step.
    table[1] = low[1];
    table[2] = low[2];
    table[3] = low[3];
    for d in 4..16 {
        table[d] = low[d % 4].mul(high[d / 4], by);
    }
    table
}

// The bits k of the four exponents from index at on, that of the first lowest.
fn digit(exponents: [u32; 8], at: usize, k: u32) -> usize
    requires { (at ≤ 4) × (k < 32) }
    ensures { result ≡ digit_of exponents at k }
{
    let a = (exponents[at] >> k) % 2;
    let b = (exponents[at + 1] >> k) % 2;
    let c = (exponents[at + 2] >> k) % 2;
    let d = (exponents[at + 3] >> k) % 2;
    (a + 2 * b + 4 * c + 8 * d) as usize
}

// Of four rows the product over eight columns of the entry by the column's exponent, a turn for each bit of the exponents, the
// highest first.
pub fn multi_pow_eight(columns: [Four; 8], exponents: [u32; 8], by: Barrett) -> Four
    ensures { lanes result ≡ multi_powers by.modulus 4 8 (lane_of columns) exponents }
{
    let low = choices(columns, 0, by);
    let high = choices(columns, 4, by);
    let mut values = Four::splat(1 % by.modulus);
    for k in (0..bit_length(largest(exponents, 8))).rev() {
        let square = values.mul(values, by);
        let half = square.mul(low[digit(exponents, 0, k)], by);
        values = half.mul(high[digit(exponents, 4, k)], by);
    }
    values
}
