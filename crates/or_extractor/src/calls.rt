// The call on two sheets' bytes (02, card 4): it loads both sheets, and the number of a refused pair is its answer.
// C reads the answers, so a refusal stands in them as a number.
ghost use Rattle.std.specs.Prelude.{◌≡◌};
ghost use Rattle.disjunctions.specs.Extractor.{extract_or};
ghost use Rattle.or_extractor.specs.Rounds.{extracted};

use crate::loaded::{SideWitness, extract_or_loaded, extracted};
use disjunctions::{OrExtracted, OrRound};
use pairs::Pair;
use refusals::Refusal;

// The witness of one of two sheets from two accepted rounds with the same commitments and different challenges, and its side, refused
// with 2 to 11 of either sheet, 26, 14 to 16 or 18 to 20.
fn side_witness(first: &[u8], second: &[u8], a: OrRound, b: OrRound) -> Result<SideWitness, Refusal>
    ensures { extracted result ≡ extract_or first.now second.now a b }
{
    let pair = Pair::load(first, second)?;
    extract_or_loaded(&pair, a, b)
}

// The witness of one of two sheets from two accepted rounds with the same commitments and different challenges, and its side;
// zeros beside the number, 2 to 11 of either sheet, 26, 14 to 16 or 18 to 20, where it is refused.
pub fn extract(first: &[u8], second: &[u8], a: OrRound, b: OrRound) -> OrExtracted
    ensures { result ≡ extract_or first.now second.now a b }
{
    extracted(side_witness(first, second, a, b))
}
