// Arithmetic modulo a 32-bit number, with products in 64 bits, and the tests of 01 that need it.
// Arrays have eight places whatever n is: memory is fixed, and the structs that C reads have them so.
#![tactic(auto)]

mod divisors; // divisors.rt: the search for a divisor of an order
mod orders; // orders.rt: the test of kind 1 on several values
mod several; // several.rt: the test of several group elements

ghost use Rattle.std.specs.Prelude.{◌≡◌, ℕ, true, false, ◌+◌, ◌-◌, ◌*◌, ◌%◌, ◌^◌, ◌≤◌, ◌<◌};
ghost use Rattle.numbers.specs.Gcd.{gcd};
ghost use Rattle.numbers.specs.Inverse.{inverse};
ghost use Rattle.sigma.specs.Element.{is_element, is_coordinate, some_non_element, some_non_coordinate};
ghost use Rattle.modular.specs.FirstFailing.{first_failing};

pub use divisors::first_divisor;
use powers::side_by_side;
use several::first_of_several;
use types::Header;

// The product of a and b modulo m.
pub fn mul_mod(a: u32, b: u32, m: u32) -> u32
    requires { 0 < m }
    ensures value { result ≡ a * b % m }
    ensures below { result < m }
{
    (a as u64 * b as u64 % m as u64) as u32
}

// The difference of a and b modulo m, for an a below m and a b of at most m.
pub fn sub_mod(a: u32, b: u32, m: u32) -> u32
    requires { (a < m) × (b ≤ m) }
    ensures value { result ≡ (a + (m - b)) % m }
    ensures below { result < m }
{
    if a >= b {
        return a - b;
    }
    a + (m - b)
}

// The power of base by exponent modulo m, by squaring and multiplying, the exponent's low bit first. The highest bit's square is
// the last one that is made.
pub fn pow_mod(base: u32, exponent: u32, m: u32) -> u32
    requires { 0 < m }
    ensures value { result ≡ base ^ exponent % m }
    ensures below { result < m }
{
    let mut square = base;
    let mut left = exponent;
    let mut power = 1 % m;
    while left > 1 {
        if left % 2 == 1 {
            power = mul_mod(power, square, m);
        }
        square = mul_mod(square, square, m);
        left = left / 2;
    }
    if left == 1 {
        return mul_mod(power, square, m);
    }
    power
}

// The greatest common divisor of a and b, by Euclid's algorithm.
fn gcd(a: u32, b: u32) -> u32
    ensures { result ≡ gcd a b }
{
    let mut x = a;
    let mut y = b;
    while y > 0 {
        let remainder = x % y;
        x = y;
        y = remainder;
    }
    x
}

// The inverse of v modulo m, for a v that has no divisor in common with m, by Euclid's algorithm on m and v. At each turn
// v times s is x and v times t is -y modulo m, or both with the other sign. Which it is at the end is tried.
pub fn inverse(v: u32, m: u32) -> u32
    requires { (1 < m) × (gcd v m ≡ 1) }
    ensures value { result ≡ inverse m v }
    ensures below { result < m }
{
    let mut x = m;
    let mut y = v;
    let mut s: u32 = 0;
    let mut t: u32 = 1;
    while y > 0 {
        let quotient = x / y;
        let rest = x % y;
        let next = s + quotient * t;
        x = y;
        y = rest;
        s = t;
        t = next;
    }
    if mul_mod(v, s, m) == 1 {
        return s;
    }
    m - s
}

// Whether v is a group element: from 1 to m - 1, with v^q mod m = 1 in kind 1 and gcd(v, m) = 1 in kind 2.
pub fn is_element(h: Header, v: u32) -> bool
    requires { 0 < h.modulus }
    ensures { result ≡ is_element h v }
{
    if v < 1 {
        return false;
    }
    if v >= h.modulus {
        return false;
    }
    if h.kind == 1 {
        return pow_mod(v, h.order, h.modulus) == 1;
    }
    gcd(v, h.modulus) == 1
}

// Whether x is a coordinate of the domain: from 0 to q - 1 in kind 1, a group element in kind 2.
fn is_coordinate(h: Header, x: u32) -> bool
    requires { 0 < h.modulus }
    ensures { result ≡ is_coordinate h x }
{
    if h.kind == 1 {
        return x < h.order;
    }
    is_element(h, x)
}

// The first index below n at which the test fails, or n if it passes at each.
fn first_failing<F: Fn(usize) -> bool>(n: usize, test: F) -> usize
    requires { (i : ℕ) → i < n → F.pre test i }
    ensures within { result ≤ n }
    ensures passed { (i : ℕ) → i < result → F.post test i true }
    ensures failed { result < n → F.post test result false }
{
    for i in 0..n {
        if !test(i) {
            return i;
        }
    }
    n
}

// The first index below n at which values holds no group element, or n where there is none. What tests several is handed a copy
// of h, so that a few are tested on h as it comes and need not wait for a copy.
pub fn first_non_element(h: Header, values: [u32; 8], n: usize) -> usize
    requires { (0 < h.modulus) × (n ≤ 8) }
    ensures value { result ≡ first_failing (is_element h) n values }
    ensures within { result ≤ n }
{
    if side_by_side(n, h.modulus) {
        let copy = h;
        return first_of_several(copy, values, n);
    }
    first_failing(n, |i| is_element(h, values[i]))
}

// The first index below n at which values holds no coordinate of the domain, or n where there is none.
pub fn first_non_coordinate(h: Header, values: [u32; 8], n: usize) -> usize
    requires { (0 < h.modulus) × (n ≤ 8) }
    ensures value { result ≡ first_failing (is_coordinate h) n values }
    ensures within { result ≤ n }
{
    if h.kind != 1 {
        if side_by_side(n, h.modulus) {
            return first_of_several(h, values, n);
        }
    }
    first_failing(n, |i| is_coordinate(h, values[i]))
}

// Whether some value among the first n is no group element.
pub fn some_non_element(h: Header, values: [u32; 8], n: usize) -> bool
    requires { (0 < h.modulus) × (n ≤ 8) }
    ensures { result ≡ some_non_element h n values }
{
    first_non_element(h, values, n) < n
}

// Whether some value among the first n is no coordinate of the domain.
pub fn some_non_coordinate(h: Header, values: [u32; 8], n: usize) -> bool
    requires { (0 < h.modulus) × (n ≤ 8) }
    ensures { result ≡ some_non_coordinate h n values }
{
    first_non_coordinate(h, values, n) < n
}
