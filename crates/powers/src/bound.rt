// Powers beside a bound of 64 bits: whether a power is above one, and the bound one below a power of two. No number above the
// bound is formed.
ghost use Rattle.std.specs.Prelude.{◌≡◌, ◌+◌, ◌^◌, ◌≤◌, ltb};

// Whether base to the exponent is above bound. A factor is multiplied in only where the product is not above bound. From 2 on
// the power at least doubles, so that this ends within 64 turns; the powers of 0 and 1 are known.
pub fn power_exceeds(base: u32, exponent: u32, bound: u64) -> bool
    ensures { result ≡ ltb bound (base ^ exponent) }
{
    if base < 2 {
        if exponent == 0 {
            return bound < 1;
        }
        return bound < base as u64;
    }
    let most = bound / base as u64;
    let mut power: u64 = 1;
    for _ in 0..exponent {
        if power > most {
            return true;
        }
        power = power * base as u64;
    }
    bound < power
}

// The number one below 2 to the exponent, which has 64 bits at most.
pub fn power_of_two_less_one(exponent: u32) -> u64
    requires { exponent ≤ 64 }
    ensures { result + 1 ≡ 2 ^ exponent }
{
    if exponent == 0 {
        return 0;
    }
    u64::MAX >> (64 - exponent)
}
