// A result as the record in which it crosses to other languages: a refusal's number stands beside zeros, and 0 beside what is answered.
ghost use Rattle.std.specs.Prelude.{◌≡◌};
ghost use Rattle.lists.specs.Places.{zeros8};
ghost use Rattle.refusals.specs.Number.{computed, written};

use crate::Refusal;
use types::{Computed, Written};

// The record of a refused call that computes values: zeros beside the number.
pub fn not_computed(number: u32) -> Computed
    ensures { result ≡ record { refusal = number; values = zeros8 } }
{
    Computed {
        values: [0u32; 8],
        refusal: number,
    }
}

// The record of what computing values gives.
pub fn computed(outcome: Result<[u32; 8], Refusal>) -> Computed
    ensures { result ≡ computed outcome }
{
    match outcome {
        Ok(values) => Computed { values, refusal: 0 },
        Err(refusal) => not_computed(refusal.number()),
    }
}

// The record of a refused call that writes into a lent buffer: length 0 beside the number.
pub fn not_written(number: u32) -> Written
    ensures { result ≡ record { refusal = number; length = 0 } }
{
    Written {
        length: 0,
        refusal: number,
    }
}

// The record of what a call gives that writes into a lent buffer: the length of what stands in it.
pub fn written(outcome: Result<usize, Refusal>) -> Written
    ensures { result ≡ written outcome }
{
    match outcome {
        Ok(length) => Written { length, refusal: 0 },
        Err(refusal) => not_written(refusal.number()),
    }
}
