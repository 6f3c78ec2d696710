// The calls on a ledger of committed values (02, card 14).
ghost use Rattle.std.specs.Prelude.{◌≡◌};
ghost use Rattle.ledgers.specs.Check.{check_ledger};
ghost use Rattle.ledgers.specs.Write.{write_ledger};

use ledgers::{Base, Checked, Entries, Ledger, LedgerWritten};

// Checks a ledger: accepted is 1, or 0 with the first product line whose round is rejected; zeros beside the number, 5, 6, 8, 10, 37,
// 35, 36 or 14 to 16, if it is refused. What a line's kind does not use, and lines beyond the count, are not read.
#[unsafe(no_mangle)]
pub extern "C" fn dimkhoros_ledger_check(base: Base, ledger: Ledger) -> Checked
    ensures { result ≡ check_ledger base ledger }
{
    ledger::check(base, ledger)
}

// Writes the ledger of all entries, with the commitments and the honest rounds; a ledger of zeros beside the number, 5, 6, 8, 10, 37,
// 35, 36, 15 or 16, if it is refused. What an entry's kind does not use, and entries beyond the count, are not read.
#[unsafe(no_mangle)]
pub extern "C" fn dimkhoros_ledger_write(base: Base, entries: Entries) -> LedgerWritten
    ensures { result ≡ write_ledger base entries }
{
    ledger_writer::write(base, entries)
}
