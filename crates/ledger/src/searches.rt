// What is asked of all lines (refusals 37, 35, 36 and 14 to 16), each number of all lines before the next. Lines beyond the count are
// not read.
// That the modulus is above 0 is a clause and no type: C hands in a `Base` of any numbers.
ghost use Rattle.std.specs.Prelude.{◌≡◌, ◌<◌};
ghost use Rattle.refusals.specs.Number.{refused_with};
ghost use Rattle.rules.specs.Rule.{lowest};
ghost use Rattle.ledger.specs.Parts.{lines_rules};

use ledger_lines::{bad_challenge, bad_elements, bad_kind, bad_response, not_above};
use ledgers::{Base, Ledger};
use refusals::Refusal;

// Tests lines over values that are not refused, which are refused with 37, 35, 36 or 14 to 16.
pub fn test_lines(base: Base, ledger: Ledger) -> Result<(), Refusal>
    requires { 0 < base.modulus }
    ensures { refused_with result ≡ lowest (lines_rules base ledger) }
{
    let count = ledger.count as usize;
    if count > 64 {
        return Err(Refusal::Lines);
    }
    let lines = &ledger.lines[..count];
    if lines.iter().any(|line| bad_kind(line.kind)) {
        return Err(Refusal::LineKind);
    }
    if lines.iter().enumerate().any(|(i, line)| not_above(i, line.kind, line.first, line.second)) {
        return Err(Refusal::LineAbove);
    }
    if lines.iter().any(|line| bad_elements(base, line)) {
        return Err(Refusal::Commitment);
    }
    if lines
        .iter()
        .any(|line| bad_challenge(base, line.kind, line.challenge))
    {
        return Err(Refusal::Challenge);
    }
    if lines.iter().any(|line| bad_response(base, line)) {
        return Err(Refusal::Slot);
    }
    Ok(())
}
