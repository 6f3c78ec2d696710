// The bits of an exponent, and its digits of two bits each, the lowest of which is digit 0.
ghost use Rattle.std.specs.Prelude.{◌≡◌, ◌+◌, ◌/◌, ◌%◌, ◌^◌, ◌≤◌, ◌<◌};

// How many bits hold v.
pub fn bit_length(v: u32) -> u32
    ensures { (result ≤ 32) × (v < 2 ^ result) }
{
    32 - v.leading_zeros()
}

// The index of a digit above which every digit is 0: that of the highest digit that is not 0, or 0.
pub fn top_digit(exponent: u32) -> u32
    ensures { (result < 16) × (exponent < 4 ^ (result + 1)) }
{
    bit_length(exponent).saturating_sub(1) / 2
}

// Digit k of an exponent.
pub fn digit_at(exponent: u32, k: u32) -> usize
    requires { k < 16 }
    ensures { result ≡ exponent / 4 ^ k % 4 }
{
    ((exponent >> (2 * k)) % 4) as usize
}
