// The test of several group elements, in kind 1 by their powers side by side, in kind 2 by one gcd of their product.
// Arrays have eight places whatever n is: memory is fixed, and the structs that C reads have them so.
ghost use Rattle.std.specs.Prelude.{◌≡◌, not, ◌≢◌, ◌≤◌, ◌<◌};
ghost use Rattle.sigma.specs.Element.{is_element, some_non_element};
ghost use Rattle.modular.specs.FirstFailing.{first_failing};

use crate::orders::first_without_order;
use crate::{first_failing, gcd, is_element, mul_mod};
use types::Header;

// Whether the first n values are all group elements of kind 2: each is from 1 to m - 1, and their product has no divisor in
// common with m, which is so exactly if none of them has.
fn all_units(h: Header, values: [u32; 8], n: usize) -> bool
    requires { (0 < h.modulus) × (n ≤ 8) × (h.kind ≢ 1) }
    ensures { result ≡ not (some_non_element h n values) }
{
    let mut product: u32 = 1;
    for i in 0..n {
        let v = values[i];
        if v < 1 {
            return false;
        }
        if v >= h.modulus {
            return false;
        }
        product = mul_mod(product, v, h.modulus);
    }
    gcd(product, h.modulus) == 1
}

// The first index below n at which values holds no group element, or n where there is none. They are tested at once, in kind
// 2 one by one where one of them fails.
pub fn first_of_several(h: Header, values: [u32; 8], n: usize) -> usize
    requires { (0 < h.modulus) × (n ≤ 8) }
    ensures value { result ≡ first_failing (is_element h) n values }
    ensures within { result ≤ n }
{
    if h.kind == 1 {
        return first_without_order(h, values, n);
    }
    if all_units(h, values, n) {
        return n;
    }
    first_failing(n, |i| is_element(h, values[i]))
}
