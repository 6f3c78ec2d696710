// Products of powers of several numbers modulo a 32-bit number m by Straus's method: the squarings serve all numbers at once.
// Four rows of numbers are computed side by side.
// Arrays have eight places whatever n is: memory is fixed, and the structs that C reads have them so.
#![tactic(auto)]

mod choices; // choices.rt: more than four columns, by tables

ghost use Rattle.std.specs.Prelude.{◌≡◌, [], ◌∷◌, ◌≤◌, ◌<◌};
ghost use Rattle.lists.specs.Places.{tabulate, places, pad8};
ghost use Rattle.powers.specs.Places.{lanes};
ghost use Rattle.straus.specs.MultiPowers.{AtMost, column_of, entry_of, lane_of, multi_powers, ones, straus_turn};

use choices::multi_pow_eight;
use powers::{Barrett, Four, bit_length};

// The largest of the first n values, 0 where there is none: none of them is above it.
fn largest(values: [u32; 8], n: usize) -> u32
    requires { n ≤ 8 }
    ensures { AtMost result n values }
{
    let mut most: u32 = 0;
    for value in &values[..n] {
        most = most.max(*value);
    }
    most
}

// The first n columns of four rows, and ones beyond them, whose powers change no product.
fn four_columns(a: [u32; 8], b: [u32; 8], c: [u32; 8], d: [u32; 8], n: usize) -> [Four; 8]
    requires { n ≤ 8 }
    ensures { result ≡ pad8 ones (tabulate n (column_of a b c d)) }
{
    let mut columns = [Four::splat(1); 8];
    for j in 0..n {
        columns[j] = Four {
            a: a[j],
            b: b[j],
            c: c[j],
            d: d[j],
        };
    }
    columns
}

// A turn of Straus's method, at bit k of the exponents: the four squares of values times those of the first n columns whose
// exponent has the bit.
fn straus_turn(
    values: Four,
    columns: [Four; 8],
    exponents: [u32; 8],
    n: usize,
    k: u32,
    by: Barrett,
) -> Four
    requires { (n ≤ 8) × (k < 32) }
    ensures { lanes result ≡ straus_turn by.modulus n k (lane_of columns) exponents (lanes values) }
{
    let mut next = values.mul(values, by);
    for j in 0..n {
        if (exponents[j] >> k) % 2 == 1 {
            next = next.mul(columns[j], by);
        }
    }
    next
}

// Of four rows the product over the first n columns of the entry by the column's exponent, a turn for each bit of the exponents,
// the highest first.
fn multi_pow_four(columns: [Four; 8], exponents: [u32; 8], n: usize, by: Barrett) -> Four
    requires { n ≤ 8 }
    ensures { lanes result ≡ multi_powers by.modulus 4 n (lane_of columns) exponents }
{
    let mut values = Four::splat(1 % by.modulus);
    for k in (0..bit_length(largest(exponents, n))).rev() {
        values = straus_turn(values, columns, exponents, n, k, by);
    }
    values
}

// Of four rows the product over the first n columns of the entry by the column's exponent. It takes the rows alone, since all
// entries handed on by value are copied.
fn four_rows(
    a: [u32; 8],
    b: [u32; 8],
    c: [u32; 8],
    d: [u32; 8],
    exponents: [u32; 8],
    n: usize,
    by: Barrett,
) -> Four
    requires { n ≤ 8 }
    ensures { lanes result ≡ multi_powers by.modulus 4 n (entry_of (a ∷ b ∷ c ∷ d ∷ [])) exponents }
{
    let columns = four_columns(a, b, c, d, n);
    if n > 4 {
        return multi_pow_eight(columns, exponents, by);
    }
    multi_pow_four(columns, exponents, n, by)
}

// Of each of so many rows the product over the first n columns of the entry by the column's exponent, modulo m, in as many
// places. Nothing is promised of those beyond.
pub fn multi_powers(
    entries: [[u32; 8]; 8],
    rows: usize,
    exponents: [u32; 8],
    n: usize,
    m: u32,
) -> [u32; 8]
    requires { (0 < m) × (rows ≤ 8) × (n ≤ 8) }
    ensures { places rows result ≡ multi_powers m rows n (entry_of entries) exponents }
{
    let by = Barrett::new(m);
    let low = four_rows(
        entries[0], entries[1], entries[2], entries[3], exponents, n, by,
    );
    if rows <= 4 {
        return [low.a, low.b, low.c, low.d, 0, 0, 0, 0];
    }
    let high = four_rows(
        entries[4], entries[5], entries[6], entries[7], exponents, n, by,
    );
    [low.a, low.b, low.c, low.d, high.a, high.b, high.c, high.d]
}
