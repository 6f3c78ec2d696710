// The search for a divisor of an order (01, "Turned back", 8), by the primes below 65,536.
#![tactic(auto)]

mod words; // words.rt: the table of primes

ghost use Rattle.std.specs.Prelude.{◌≡◌};
ghost use Rattle.modular.specs.Divisor.{divisor_of, divisor_outcome};

use prime_search::{search, within};
use words::WORDS;

// Up to here the numbers are tried one after the other: a table that is not in the cache would take longer.
const FEW: u32 = 4096;

// The first d with 2 ≤ d < challenges that divides order, if there is one.
pub fn first_divisor(order: u32, challenges: u32) -> Option<u32>
    ensures { divisor_outcome result ≡ divisor_outcome (divisor_of order challenges) }
{
    if challenges <= FEW || order < FEW * FEW {
        return modular::first_divisor(order, challenges);
    }
    if order % 2 == 0 {
        return within(2, challenges);
    }
    if order % 3 == 0 {
        return within(3, challenges);
    }
    search(&WORDS, order, challenges)
}
