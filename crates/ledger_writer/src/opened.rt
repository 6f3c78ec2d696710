// What a line opens to, of what the lines above it open to, and the commitment to it.
// That the modulus is above 0 is a clause and no type: C hands in a `Base` of any numbers.
ghost use Rattle.std.specs.Prelude.{◌≡◌, List, ◌⊎◌, ◌+◌, ◌%◌, ◌<◌};
ghost use Rattle.ledgers.specs.Write.{Opening, commit_to, opening_of};
ghost use Rattle.ledger_writer.specs.Parts.{Keeps, opening};

use ledger_lines::Kind;
use ledgers::{Base, Entry};
use modular::{mul_mod, pow_mod};

// What a line opens to: a value and a blinding number.
#[derive(Clone, Copy)]
pub struct Opened {
    pub value: u32,
    pub blinding: u32,
}

// The sum of a and b modulo q.
fn add_mod(a: u32, b: u32, q: u32) -> u32
    requires { 0 < q }
    ensures { result ≡ (a + b) % q }
{
    ((a as u64 + b as u64) % q as u64) as u32
}

// What a line opens to: what is given for a commitment; for a sum the sums, mod q, of what the two lines that it names open to; and for
// a product the product of their values, mod q, with the given blinding number.
pub fn line_opening(q: u32, above: &[Opened; 64], entry: &Entry) -> Opened
    requires order { 0 < q }
    requires names { (entry.now.kind ≡ 2) ⊎ (entry.now.kind ≡ 3) → (entry.now.first < 64) × (entry.now.second < 64) }
    ensures { (openings : List Opening) → Keeps above.now openings → opening result ≡ opening_of q openings entry.now }
{
    match Kind::try_from(entry.kind) {
        Ok(Kind::Sum) => {
            let one = above[entry.first as usize];
            let two = above[entry.second as usize];
            Opened {
                value: add_mod(one.value, two.value, q),
                blinding: add_mod(one.blinding, two.blinding, q),
            }
        }
        Ok(Kind::Product) => {
            let one = above[entry.first as usize];
            let two = above[entry.second as usize];
            Opened {
                value: mul_mod(one.value, two.value, q),
                blinding: entry.blinding,
            }
        }
        _ => Opened {
            value: entry.value,
            blinding: entry.blinding,
        },
    }
}

// The commitment g^value h^blinding mod m.
pub fn commit(base: Base, opened: Opened) -> u32
    requires { 0 < base.modulus }
    ensures { result ≡ commit_to base (opening opened) }
{
    mul_mod(
        pow_mod(base.g, opened.value, base.modulus),
        pow_mod(base.h, opened.blinding, base.modulus),
        base.modulus,
    )
}
