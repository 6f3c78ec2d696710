// The search for a divisor of an order (01, "Turned back", 8).
ghost use Rattle.std.specs.Prelude.{◌≡◌, ◌<◌};
ghost use Rattle.std.specs.Int.{◌∣◌};
ghost use Rattle.modular.specs.Divisor.{divisor_of, divisor_outcome, Candidate};

// The number to try after d, where no number from 2 to d divides order. Multiples of 2 and 3 are left out and, above the
// square root, every number but order: any other divisor there would have its cofactor below the root. Where order is 1 it is
// the largest number, which no challenge count is above.
fn next_candidate(order: u32, d: u32) -> u32
    requires { Candidate order d × ¬ (d ∣ order) × (d < 4294967295) }
    ensures candidate { Candidate order result }
    ensures later { d < result }
{
    if order <= d {
        return u32::MAX;
    }
    if order / d < d {
        return order;
    }
    if d == 2 {
        return 3;
    }
    if d % 6 == 1 {
        return d + 4;
    }
    d + 2
}

// The first d with 2 ≤ d < challenges that divides order, if there is one.
pub fn first_divisor(order: u32, challenges: u32) -> Option<u32>
    ensures { divisor_outcome result ≡ divisor_outcome (divisor_of order challenges) }
{
    let mut d: u32 = 2;
    loop {
        if d >= challenges {
            break None;
        }
        if order % d == 0 {
            break Some(d);
        }
        d = next_candidate(order, d);
    }
}
