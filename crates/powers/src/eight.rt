// Eight powers by one exponent, two of its bits a turn. Two fours take their turns side by side, since a four's products wait for
// one another.
ghost use Rattle.std.specs.Prelude.{◌≡◌, ℕ, ◌≤◌};
ghost use Rattle.lists.specs.Places.{places};
ghost use Rattle.powers.specs.Places.{FirstPowers, powers_of};

use crate::barrett::Barrett;
use crate::digits::{digit_at, top_digit};
use crate::four::Four;

// The powers of the four bases by 0, 1, 2 and 3.
fn first_powers(base: Four, by: Barrett) -> [Four; 4]
    ensures { FirstPowers by.modulus base result }
{
    let ones = Four::splat(1 % by.modulus);
    let first = ones.mul(base, by);
    let second = first.mul(first, by);
    let third = second.mul(first, by);
    [ones, first, second, third]
}

// The powers of eight values by exponent, a turn for each digit of two bits, the highest first: two squarings, and a product with
// the power by the digit.
pub fn pow_eight(values: [u32; 8], exponent: u32, by: Barrett) -> [u32; 8]
    ensures { (n : ℕ) → n ≤ 8 → places n result ≡ powers_of by.modulus exponent n values }
{
    let lows = first_powers(Four::at(values, 0), by);
    let highs = first_powers(Four::at(values, 4), by);
    let last = top_digit(exponent);
    let top = digit_at(exponent, last);
    let mut low = lows[top];
    let mut high = highs[top];
    for k in (0..last).rev() {
        let digit = digit_at(exponent, k);
        low = low.mul(low, by);
        high = high.mul(high, by);
        low = low.mul(low, by);
        high = high.mul(high, by);
        low = low.mul(lows[digit], by);
        high = high.mul(highs[digit], by);
    }
    [low.a, low.b, low.c, low.d, high.a, high.b, high.c, high.d]
}
