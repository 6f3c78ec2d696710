// The entries that generators and coefficients give (02, card 10).
// What the counts are is a clause and no type, since `try_make` alone calls these and tests it once.
ghost use Rattle.std.specs.Prelude.{◌<◌, [], ◌≡◌};
ghost use Rattle.lists.specs.Places.{eight_by_eight};
ghost use Rattle.linear_forms.specs.Linear.{linear_entry};
ghost use Rattle.linear_maker.specs.Plan.{Counted, linear_row, plan_of};

use modular::{mul_mod, pow_mod};
use types::Header;

// Entry (i, j): the product over the generators of generator^coefficient mod m.
fn entry_of(h: Header, generators: &[u32], coefficients: &[u32], i: usize, j: usize) -> u32
    requires counted { Counted h generators.now coefficients.now }
    requires row { i < h.rows }
    requires column { j < h.columns }
    ensures { result ≡ linear_entry (plan_of h generators.now coefficients.now []) i j }
{
    let columns = h.columns as usize;
    let count = generators.len();
    let mut entry: u32 = 1;
    for g in 0..count {
        let coefficient = coefficients[(i * count + g) * columns + j];
        let power = pow_mod(generators[g], coefficient, h.modulus);
        entry = mul_mod(entry, power, h.modulus);
    }
    entry
}

// Row i of the entries, with 0 in the places beyond the columns.
fn row_of(h: Header, generators: &[u32], coefficients: &[u32], i: usize) -> [u32; 8]
    requires counted { Counted h generators.now coefficients.now }
    requires row { i < h.rows }
    ensures { result ≡ linear_row (plan_of h generators.now coefficients.now []) i }
{
    let columns = h.columns as usize;
    let mut row = [0u32; 8];
    for j in 0..columns {
        row[j] = entry_of(h, generators, coefficients, i, j);
    }
    row
}

// The entries, with 0 in the places beyond the rows and columns.
pub fn entries_of(h: Header, generators: &[u32], coefficients: &[u32]) -> [[u32; 8]; 8]
    requires { Counted h generators.now coefficients.now }
    ensures { result ≡
        eight_by_eight h.rows h.columns (linear_entry (plan_of h generators.now coefficients.now [])) }
{
    let rows = h.rows as usize;
    let mut entries = [[0u32; 8]; 8];
    for i in 0..rows {
        entries[i] = row_of(h, generators, coefficients, i);
    }
    entries
}
