// What all players of a team bring, multiplied and joined place by place (02, card 6).
// These read fixed fields alone, so they take a `Header` with its bounds, and not a whole `Sheet`.
// Other crates fill eight places by a `for` of one line, where speed or a clause of its own asks for it.
ghost use Rattle.std.specs.Prelude.{◌≡◌, ℕ, ◌%◌, ◌≤◌, ◌<◌, length};
ghost use Rattle.lists.specs.Places.{pad8, tabulate};
ghost use Rattle.numbers.specs.Product.{product, sum};
ghost use Rattle.products.specs.Team.{join_all, multiply_all};
ghost use Rattle.combiner.specs.Parts.{joined_slot, place_of};

use modular::mul_mod;
use types::Header;

// The product modulo m of what the parts hold in place i.
fn product_at(parts: &[[u32; 8]], i: usize, m: u32) -> u32
    requires { (0 < m) × (i < 8) }
    ensures { result ≡ product (length parts.now) (place_of parts.now i) % m }
{
    parts
        .iter()
        .fold(1 % m, |value, part| mul_mod(value, part[i], m))
}

// The sum of what at most eight parts hold in place j. Eight values of 32 bits do not overflow it.
fn sum_at(parts: &[[u32; 8]], j: usize) -> u64
    requires { (length parts.now ≤ 8) × (j < 8) }
    ensures { result ≡ sum (length parts.now) (place_of parts.now j) }
{
    parts.iter().map(|part| u64::from(part[j])).sum()
}

// Slot j of the parts joined: their sum mod q in kind 1, their product mod m in kind 2.
fn joined_slot(h: Header, parts: &[[u32; 8]], j: usize) -> u32
    requires { (0 < h.modulus) × (0 < h.order) × (length parts.now ≤ 8) × (j < 8) }
    ensures { result ≡ joined_slot h (length parts.now) parts.now j }
{
    if h.kind == 1 {
        return (sum_at(parts, j) % u64::from(h.order)) as u32;
    }
    product_at(parts, j, h.modulus)
}

// The values of f in the first n places, and zeros beyond them.
fn tabulated<F: Fn(usize) -> u32>(n: usize, f: F) -> [u32; 8]
    requires few { n ≤ 8 }
    requires callable { (i : ℕ) → i < n → F.pre f i }
    ensures { (g : ℕ → ℕ) → ((i y : ℕ) → i < n → F.post f i y → y ≡ g i) → result ≡ pad8 0 (tabulate n g) }
{
    let mut values = [0u32; 8];
    for i in 0..n {
        values[i] = f(i);
    }
    values
}

// The parts multiplied mod m, a value for each row, and zeros beyond them.
pub fn multiply_all(h: Header, parts: &[[u32; 8]]) -> [u32; 8]
    requires { (0 < h.modulus) × (h.rows ≤ 8) }
    ensures { result ≡ pad8 0 (multiply_all h (length parts.now) parts.now) }
{
    tabulated(h.rows as usize, |i| product_at(parts, i, h.modulus))
}

// The parts joined, a slot for each column, and zeros beyond them.
pub fn join_all(h: Header, parts: &[[u32; 8]]) -> [u32; 8]
    requires { (0 < h.modulus) × (0 < h.order) × (h.columns ≤ 8) × (length parts.now ≤ 8) }
    ensures { result ≡ pad8 0 (join_all h (length parts.now) parts.now) }
{
    tabulated(h.columns as usize, |j| joined_slot(h, parts, j))
}
