// The call that writes a ledger.
// C reads the answers, so a refusal stands in them as a number.
ghost use Rattle.std.specs.Prelude.{◌≡◌};
ghost use Rattle.ledgers.specs.Write.{ledger_of, write_ledger, zero_line};
ghost use Rattle.ledger_writer.specs.Outcome.{written};

use crate::made::{made_lines, plain_line};
use ledger_entries::test_entries;
use ledger_lines::test_base;
use ledgers::{Base, Entries, Ledger, LedgerWritten};
use refusals::Refusal;

// A ledger of zeros.
fn zero_ledger() -> Ledger
    ensures { result ≡ ledger_of 0 (λ i. zero_line) }
{
    let lines = [plain_line(0, 0, 0, 0); 64];
    Ledger { lines, count: 0 }
}

// The ledger of all entries, or why they are refused.
fn made_ledger(base: Base, entries: Entries) -> Result<Ledger, Refusal>
    ensures { written result ≡ write_ledger base entries }
{
    test_base(base)?;
    test_entries(base, entries)?;
    Ok(Ledger {
        lines: made_lines(base, entries),
        count: entries.count,
    })
}

// Writes the ledger of all entries; a ledger of zeros beside the number, 5, 6, 8, 10, 37, 35, 36, 15 or 16, if it is refused.
pub fn write(base: Base, entries: Entries) -> LedgerWritten
    ensures { result ≡ write_ledger base entries }
{
    match made_ledger(base, entries) {
        Ok(ledger) => LedgerWritten { ledger, refusal: 0 },
        Err(refusal) => LedgerWritten {
            ledger: zero_ledger(),
            refusal: refusal.number(),
        },
    }
}
