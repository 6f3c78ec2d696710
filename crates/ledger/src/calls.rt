// The call that checks a ledger.
// C reads the answers, so a refusal stands in them as a number.
ghost use Rattle.std.specs.Prelude.{◌≡◌};
ghost use Rattle.ledgers.specs.Check.{check_ledger};
ghost use Rattle.ledger.specs.Outcome.{checked};

use crate::judging::first_rejected;
use crate::searches::test_lines;
use ledger_lines::test_base;
use ledgers::{Base, Checked, Ledger};
use refusals::Refusal;

// The first product line whose round is rejected, if there is one, or why the ledger is refused.
fn rejected_line(base: Base, ledger: Ledger) -> Result<Option<u32>, Refusal>
    ensures { checked result ≡ check_ledger base ledger }
{
    test_base(base)?;
    test_lines(base, ledger)?;
    Ok(first_rejected(base, ledger))
}

// Checks a ledger: accepted is 1, or 0 with the first product line whose round is rejected; zeros beside the number, 5, 6, 8, 10, 37,
// 35, 36 or 14 to 16, if it is refused.
pub fn check(base: Base, ledger: Ledger) -> Checked
    ensures { result ≡ check_ledger base ledger }
{
    match rejected_line(base, ledger) {
        Ok(None) => Checked {
            accepted: 1,
            line: 0,
            refusal: 0,
        },
        Ok(Some(line)) => Checked {
            accepted: 0,
            line,
            refusal: 0,
        },
        Err(refusal) => Checked {
            accepted: 0,
            line: 0,
            refusal: refusal.number(),
        },
    }
}
