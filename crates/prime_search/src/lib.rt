// The search for a divisor of an order (01, "Turned back", 8), by a table of primes.
#![tactic(auto)]

ghost use Rattle.std.specs.Prelude.{◌≡◌, true, suc, ◌+◌, ◌/◌, ◌≤◌, ◌<◌};
ghost use Rattle.numbers.specs.Divisors.{NoDivisorBelow};
ghost use Rattle.modular.specs.Divisor.{divisor_of, divisor_outcome};
ghost use Rattle.prime_words.specs.Words.{next, last, Table, Good};
ghost use Rattle.prime_search.specs.Search.{OfWord, low, SharesAbove, Searched, within_of};

// How many words are searched with one quotient.
const BLOCK: usize = 16;

// The five numbers of a word.
#[derive(Clone, Copy)]
struct Five {
    first: u32,
    second: u32,
    third: u32,
    fourth: u32,
    fifth: u32,
}

// The low 32 bits of a product.
fn low_product(a: u32, b: u32) -> u32
    ensures { result ≡ low a b }
{
    (a as u64 * b as u64 % 4294967296) as u32
}

// The number after a, by the lowest gap.
fn next_number(a: u32, gaps: u64) -> u32
    requires { a ≤ 4294967169 }
    ensures { (result ≡ next a gaps) × (result ≤ a + 126) }
{
    a + 2 * (gaps % 64) as u32
}

// The numbers of the word e after a.
fn unpack(a: u32, e: u64) -> Five
    requires { a ≤ 65535 }
    ensures { OfWord a e result }
{
    let first = next_number(a, e);
    let second = next_number(first, e / 64);
    let third = next_number(second, e / 64 / 64);
    let fourth = next_number(third, e / 64 / 64 / 64);
    let fifth = next_number(fourth, e / 64 / 64 / 64 / 64);
    Five {
        first,
        second,
        third,
        fourth,
        fifth,
    }
}

// Whether the shares of p and q are above `most`, by the share of their product.
fn pair_above(share: u32, p: u32, q: u32, most: u32) -> bool
    ensures { result ≡ true → (most < low share q) × (most < low share p) }
{
    low_product(share, q) > most && low_product(share, p) > most
}

// Whether the shares of five numbers are above `most`, by the inverse of their product.
fn shares_above(order: u32, inverse: u32, five: Five, most: u32) -> bool
    ensures { result ≡ true → SharesAbove order inverse five most }
{
    let all = low_product(order, inverse);
    let four = low_product(all, five.fifth);
    let front = low_product(five.first, five.second);
    let back = low_product(five.third, five.fourth);
    pair_above(low_product(four, back), five.first, five.second, most)
        && pair_above(low_product(four, front), five.third, five.fourth, most)
        && low_product(low_product(all, front), back) > most
}

// The first of the five numbers of the word e after a that divides order, if one does, by a division for each.
fn divide(order: u32, a: u32, e: u64) -> Option<u32>
    requires { Good a e × (3 ≤ a) × (a ≤ 65535) × NoDivisorBelow order (suc a) }
    ensures { Searched order (last 5 a e) result }
{
    let mut p = a;
    let mut gaps = e;
    for _ in 0..5u32 {
        p = next_number(p, gaps);
        if order % p == 0 {
            return Some(p);
        }
        gaps = gaps / 64;
    }
    None
}

// The first of the five numbers of the word e after a that divides order, if one does. The share of a number that divides is the quotient,
// and no quotient is above `most`: so shares above it rule all five out without a division.
fn in_word(order: u32, a: u32, e: u64, five: Five, most: u32) -> Option<u32>
    requires { Good a e × (3 ≤ a) × (a ≤ 65535) × OfWord a e five × (order / a ≤ most) × NoDivisorBelow order (suc a) }
    ensures { Searched order (last 5 a e) result }
{
    if shares_above(order, (e / 4294967296) as u32, five, most) {
        return None;
    }
    divide(order, a, e)
}

// A bound of the quotients by the numbers from a on: at the beginning of a block the quotient by a, else the bound of a number before.
fn bound(order: u32, a: u32, most: u32, i: usize) -> u32
    requires { (0 < a) × (order / a ≤ most) }
    ensures { order / a ≤ result }
{
    if i % BLOCK == 0 {
        return order / a;
    }
    most
}

// d if it is below the count of challenges.
pub fn within(d: u32, challenges: u32) -> Option<u32>
    ensures { result ≡ within_of d challenges }
{
    (d < challenges).then_some(d)
}

// The first d with 2 ≤ d < challenges that divides order, if there is one. The order is at least 2, and neither 2 nor 3 divides it.
pub fn search(table: &[u64; 1308], order: u32, challenges: u32) -> Option<u32>
    requires { Table table.now × (2 ≤ order) × NoDivisorBelow order 4 }
    ensures { divisor_outcome result ≡ divisor_outcome (divisor_of order challenges) }
{
    let mut a: u32 = 3;
    let mut most = order;
    for (i, e) in table.iter().enumerate() {
        if challenges <= a {
            return None;
        }
        most = bound(order, a, most, i);
        if most < a {
            return within(order, challenges);
        }
        let five = unpack(a, *e);
        if let Some(d) = in_word(order, a, *e, five, most) {
            return within(d, challenges);
        }
        a = five.fifth;
    }
    within(order, challenges)
}
