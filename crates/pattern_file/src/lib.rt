// Testing a pattern file (02, card 2; refusals 23 and 24), and where its patterns stand.
#![tactic(auto)]

mod digits; // digits.rt: what a pattern's digits name
mod layout; // layout.rt: the places of the fields, and the walk over the patterns

ghost use Rattle.std.specs.Prelude.{[], ◌∷◌, ◌≡◌};
ghost use Rattle.refusals.specs.Number.{refused_with};
ghost use Rattle.rules.specs.Rule.{◌when◌, lowest};
ghost use Rattle.patterns.specs.PatternFile.{bad_digits, bad_pattern_file};

use crate::digits::bad_digits;
use crate::layout::bad_file;
pub use layout::{MARK, START, Sizes, sizes_at, start_of};
use refusals::Refusal;

// Tests a pattern file, which is refused with 23 or 24. No byte past its end is read.
pub fn test_file(file: &[u8]) -> Result<(), Refusal>
    ensures { refused_with result ≡ lowest ((23 when bad_pattern_file file.now) ∷ (24 when bad_digits file.now) ∷ []) }
{
    if bad_file(file) {
        return Err(Refusal::PatternFile);
    }
    if bad_digits(file) {
        return Err(Refusal::Digit);
    }
    Ok(())
}
