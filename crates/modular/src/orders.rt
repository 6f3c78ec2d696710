// The test of a group element of kind 1 on several values, whose powers by q are computed side by side.
// Arrays have eight places whatever n is: memory is fixed, and the structs that C reads have them so.
ghost use Rattle.std.specs.Prelude.{◌≡◌, ◌%◌, ◌^◌, ◌≤◌, ◌<◌};
ghost use Rattle.sigma.specs.Element.{is_element};
ghost use Rattle.modular.specs.FirstFailing.{first_failing};

use crate::first_failing;
use powers::powers;
use types::Header;

// Whether v is a group element of kind 1, by its power by q: from 1 to m - 1, and the power is 1.
fn has_order(h: Header, v: u32, power: u32) -> bool
    requires { (h.kind ≡ 1) × (power ≡ v ^ h.order % h.modulus) }
    ensures { result ≡ is_element h v }
{
    if v < 1 {
        return false;
    }
    if v >= h.modulus {
        return false;
    }
    power == 1
}

// The first index below n at which values holds no group element of kind 1, or n where there is none.
pub fn first_without_order(h: Header, values: [u32; 8], n: usize) -> usize
    requires { (0 < h.modulus) × (n ≤ 8) × (h.kind ≡ 1) }
    ensures value { result ≡ first_failing (is_element h) n values }
    ensures within { result ≤ n }
{
    let raised = powers(values, n, h.order, h.modulus);
    first_failing(n, |i| has_order(h, values[i], raised[i]))
}
