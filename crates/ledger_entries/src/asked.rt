// What is asked of all entries (refusals 37, 35, 36, 15 and 16), each number of all entries before the next, and of an entry only what
// its kind uses. Entries beyond the count are not read.
ghost use Rattle.std.specs.Prelude.{◌≡◌};
ghost use Rattle.refusals.specs.Number.{refused_with};
ghost use Rattle.rules.specs.Rule.{lowest};
ghost use Rattle.ledgers.specs.Write.{bad_numbers};
ghost use Rattle.ledger_entries.specs.Parts.{entries_rules};

use ledger_lines::{Kind, bad_challenge, bad_kind, not_above, some_high_slot};
use ledgers::{Base, Entries, Entry};
use refusals::Refusal;

// Whether a value, a blinding number or a nonce slot that is used is q or more.
fn bad_numbers(base: Base, entry: &Entry) -> bool
    ensures { result ≡ bad_numbers base entry.now }
{
    match Kind::try_from(entry.kind) {
        Ok(Kind::Commitment) => entry.value >= base.order || entry.blinding >= base.order,
        Ok(Kind::Product) => entry.blinding >= base.order || some_high_slot(base, entry.nonce),
        _ => false,
    }
}

// Tests entries over values that are not refused, which are refused with 37, 35, 36, 15 or 16.
pub fn test_entries(base: Base, entries: Entries) -> Result<(), Refusal>
    ensures { refused_with result ≡ lowest (entries_rules base entries) }
{
    let count = entries.count as usize;
    if count > 64 {
        return Err(Refusal::Lines);
    }
    let list = &entries.entries[..count];
    if list.iter().any(|entry| bad_kind(entry.kind)) {
        return Err(Refusal::LineKind);
    }
    if list.iter().enumerate().any(|(i, entry)| not_above(
        i,
        entry.kind,
        entry.first,
        entry.second,
    )) {
        return Err(Refusal::LineAbove);
    }
    if list
        .iter()
        .any(|entry| bad_challenge(base, entry.kind, entry.challenge))
    {
        return Err(Refusal::Challenge);
    }
    if list.iter().any(|entry| bad_numbers(base, entry)) {
        return Err(Refusal::Slot);
    }
    Ok(())
}
