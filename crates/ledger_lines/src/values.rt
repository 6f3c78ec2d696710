// The commitment of a line, and the entries of the product statement.
// That the modulus is above 0 is a clause and no type: C hands in a `Base` of any numbers.
ghost use Rattle.std.specs.Prelude.{◌≡◌, ℕ, ◌*◌, ◌%◌, ◌<◌, get_or};
ghost use Rattle.ledgers.specs.Ledger.{line_commitment, product_of};

use crate::kinds::Kind;
use ledgers::{Base, Line};
use modular::mul_mod;

// The numbers of two lines of those that are lent, multiplied modulo m.
fn product_in(numbers: &[u32; 64], first: u32, second: u32, m: u32) -> u32
    requires { (first < 64) × (second < 64) × (0 < m) }
    ensures { result ≡ get_or numbers.now first 0 * get_or numbers.now second 0 % m }
{
    mul_mod(numbers[first as usize], numbers[second as usize], m)
}

// The numbers of two lines, multiplied modulo m.
pub fn product_of_two(numbers: [u32; 64], first: u32, second: u32, m: u32) -> u32
    requires { (first < 64) × (second < 64) × (0 < m) }
    ensures { result ≡ get_or numbers first 0 * get_or numbers second 0 % m }
{
    product_in(&numbers, first, second, m)
}

// The commitment of a line, of those of the lines above it: two of these multiplied for a sum, else its own.
pub fn line_commitment(m: u32, above: &[u32; 64], line: &Line) -> u32
    requires modulus { 0 < m }
    requires names { line.now.kind ≡ 2 → (line.now.first < 64) × (line.now.second < 64) }
    ensures { result ≡ line_commitment m above.now line.now }
{
    match Kind::try_from(line.kind) {
        Ok(Kind::Sum) => product_in(above, line.first, line.second, m),
        _ => line.commitment,
    }
}

// The entries of the product statement whose second factor has the commitment b: the rows (g h 1) and (b 1 h).
pub fn product_entries(base: Base, b: u32) -> [[u32; 8]; 8]
    ensures { (A E : ℕ) → result ≡ (product_of base A b E).entries }
{
    let mut entries = [[0u32; 8]; 8];
    entries[0] = [base.g, base.h, 1, 0, 0, 0, 0, 0];
    entries[1] = [b, 1, base.h, 0, 0, 0, 0, 0];
    entries
}
