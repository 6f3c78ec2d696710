// The kinds of lines, of the numbers that stand for them in the structs that cross to C.
ghost use Rattle.std.specs.Prelude.{◌≡◌};
ghost use Rattle.ledger_lines.specs.Kinds.{kind_of};

use refusals::Refusal;

// A commitment, the sum of the two lines that a line names, or their product.
#[derive(Clone, Copy)]
pub enum Kind {
    Commitment = 1,
    Sum = 2,
    Product = 3,
}

impl TryFrom<u32> for Kind {
    type Error = Refusal;

    ghost try_from_gives = { λ number result. result ≡ kind_of number };

    // The kind that a number stands for; a number that stands for none is refused with 35.
    fn try_from(number: u32) -> Result<Self, Refusal> {
        match number {
            1 => Ok(Kind::Commitment),
            2 => Ok(Kind::Sum),
            3 => Ok(Kind::Product),
            _ => Err(Refusal::LineKind),
        }
    }
}
