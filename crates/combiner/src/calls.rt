// The calls on a sheet's bytes (02, card 6): each loads the sheet. The number of a refused sheet or of the team's size is the
// answer, else the tests of what the players bring follow.
// The two calls are alike and stay two: a function over both would take what to compute and the refusal of a bad part, and say less.
// C reads the answers, so a refusal stands in them as a number.
ghost use Rattle.std.specs.Prelude.{◌≡◌};
ghost use Rattle.refusals.specs.Number.{computed};
ghost use Rattle.products.specs.Team.{join_responses, multiply_commitments};

use crate::loaded::{join_loaded, multiply_loaded};
use crate::testing::load_sized;
use refusals::{Refusal, computed};
use types::Computed;

// The commitments of a team's players multiplied, refused with 2 to 9, 27, 10, 11, 14 or 28.
fn multiplied(
    sheet: &[u8],
    count: u32,
    images: &[[u32; 8]; 8],
    parts: &[[u32; 8]; 8],
) -> Result<[u32; 8], Refusal>
    ensures { computed result ≡ multiply_commitments sheet.now count images.now parts.now }
{
    let loaded = load_sized(sheet, count)?;
    let players = count as usize;
    multiply_loaded(&loaded, &images[..players], &parts[..players])
}

// The commitments of a team's players multiplied mod m, a value for each row; zeros beside the number, 2 to 9, 27, 10, 11, 14 or
// 28, where it is refused. Of images and parts, s places of the first count rows are read.
pub fn commitment(sheet: &[u8], count: u32, images: [[u32; 8]; 8], parts: [[u32; 8]; 8]) -> Computed
    ensures { result ≡ multiply_commitments sheet.now count images parts }
{
    computed(multiplied(sheet, count, &images, &parts))
}

// The responses of a team's players joined, refused with 2 to 9, 27, 10, 11, 16 or 28.
fn joined(
    sheet: &[u8],
    count: u32,
    images: &[[u32; 8]; 8],
    parts: &[[u32; 8]; 8],
) -> Result<[u32; 8], Refusal>
    ensures { computed result ≡ join_responses sheet.now count images.now parts.now }
{
    let loaded = load_sized(sheet, count)?;
    let players = count as usize;
    join_loaded(&loaded, &images[..players], &parts[..players])
}

// The responses of a team's players joined, a slot for each column: added mod q in kind 1, multiplied mod m in kind 2; zeros beside
// the number, 2 to 9, 27, 10, 11, 16 or 28, where it is refused. Of the images s places, and of the parts n places, of the first
// count rows are read.
pub fn response(sheet: &[u8], count: u32, images: [[u32; 8]; 8], parts: [[u32; 8]; 8]) -> Computed
    ensures { result ≡ join_responses sheet.now count images parts }
{
    computed(joined(sheet, count, &images, &parts))
}
