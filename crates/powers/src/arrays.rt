// Powers and products of the first places of an array.
// Arrays have eight places whatever n is: memory is fixed, and the structs that C reads have them so.
ghost use Rattle.std.specs.Prelude.{◌≡◌, ◌≤◌, ◌<◌};
ghost use Rattle.lists.specs.Places.{places, pad8};
ghost use Rattle.powers.specs.Places.{products_of, powers_of, mul_powers};

use crate::barrett::Barrett;
use crate::eight::pow_eight;
use crate::four::Four;

// The powers of the first n values by exponent modulo m, in the first n places. Nothing is promised of those beyond.
pub fn powers(values: [u32; 8], n: usize, exponent: u32, m: u32) -> [u32; 8]
    requires { (0 < m) × (n ≤ 8) }
    ensures { places n result ≡ powers_of m exponent n values }
{
    let by = Barrett::new(m);
    if n > 4 {
        return pow_eight(values, exponent, by);
    }
    let low = Four::at(values, 0).pow(exponent, by);
    [low.a, low.b, low.c, low.d, 0, 0, 0, 0]
}

// The products of the first n places of xs and ys modulo m, and zeros beyond them.
pub fn products(xs: [u32; 8], ys: [u32; 8], n: usize, m: u32) -> [u32; 8]
    requires { (0 < m) × (n ≤ 8) }
    ensures { result ≡ pad8 0 (products_of m n xs ys) }
{
    let by = Barrett::new(m);
    let mut values = [0u32; 8];
    for i in 0..n {
        values[i] = by.mul(xs[i], ys[i]);
    }
    values
}

// The first n places of xs times the powers of values by exponent, modulo m, and zeros beyond them.
pub fn mul_powers(xs: [u32; 8], values: [u32; 8], n: usize, exponent: u32, m: u32) -> [u32; 8]
    requires { (0 < m) × (n ≤ 8) }
    ensures { result ≡ pad8 0 (mul_powers m exponent n xs values) }
{
    products(xs, powers(values, n, exponent, m), n, m)
}
