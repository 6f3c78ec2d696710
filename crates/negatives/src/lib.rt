// Inverses and powers by negative exponents modulo a 32-bit number: of one group element, and of the first places of an array.
// Arrays have eight places whatever n is: memory is fixed, and the structs that C reads have them so.
#![tactic(auto)]

ghost use Rattle.std.specs.Prelude.{◌≡◌, ℕ, ◌≤◌, ◌<◌, pos, neg_ℤ, get_or};
ghost use Rattle.lists.specs.Places.{pad8};
ghost use Rattle.numbers.specs.Gcd.{gcd};
ghost use Rattle.numbers.specs.Integer.{power};
ghost use Rattle.sigma.specs.Element.{Element};
ghost use Rattle.negatives.specs.Negative.{inverses_of, mul_negative_powers};

use modular::{inverse, pow_mod};
use powers::mul_powers;
use types::Header;

// The group element v by the exponent -n, modulo m: in kind 1 v by q - n, in kind 2 the inverse of v by n.
pub fn negative_power(h: Header, v: u32, n: u32) -> u32
    requires { (1 < h.modulus) × (0 < h.order) × (n ≤ h.order) × Element h v }
    ensures { result ≡ power h.modulus v (neg_ℤ (pos n)) }
{
    if h.kind == 1 {
        let opposite = h.order - n;
        return pow_mod(v, opposite, h.modulus);
    }
    pow_mod(inverse(v, h.modulus), n, h.modulus)
}

// The inverses of the first n values modulo m, for values that have no divisor in common with m, and zeros beyond them.
pub fn inverses(values: [u32; 8], n: usize, m: u32) -> [u32; 8]
    requires { (1 < m) × (n ≤ 8) × ((i : ℕ) → i < n → gcd (get_or values i 0) m ≡ 1) }
    ensures { result ≡ pad8 0 (inverses_of m n values) }
{
    let mut found = [0u32; 8];
    for i in 0..n {
        found[i] = inverse(values[i], m);
    }
    found
}

// The first n places of xs times the group elements of values by the exponent -e, modulo m, and zeros beyond them: in kind 1
// by q - e, in kind 2 the inverses by e.
pub fn mul_negative_powers(h: Header, xs: [u32; 8], values: [u32; 8], n: usize, e: u32) -> [u32; 8]
    requires { (1 < h.modulus) × (0 < h.order) × (e ≤ h.order) × (n ≤ 8)
        × ((i : ℕ) → i < n → Element h (get_or values i 0)) }
    ensures { result ≡ pad8 0 (mul_negative_powers h.modulus e n xs values) }
{
    if h.kind == 1 {
        let opposite = h.order - e;
        return mul_powers(xs, values, n, opposite, h.modulus);
    }
    mul_powers(xs, inverses(values, n, h.modulus), n, e, h.modulus)
}
