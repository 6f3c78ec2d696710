// Multiplying a team's commitments and joining its responses, on loaded values and for a team of two to eight (02, card 6).
ghost use Rattle.std.specs.Prelude.{◌≡◌, false, List, ℕ, ◌≤◌, ◌<◌, length};
ghost use Rattle.rules.specs.Call.{answer};
ghost use Rattle.refusals.specs.Number.{computed};
ghost use Rattle.instance.specs.Values.{values_of};
ghost use Rattle.products.specs.Team.{bad_team, joining, multiplying};

use crate::joining::{join_all, multiply_all};
use crate::parts::{some_non_coordinate_part, some_non_element_part};
use crate::testing::{test_images, test_product};
use instance::Sheet;
use refusals::Refusal;

// The players' commitments multiplied, refused with 11, then with 14 for a value of any player's commitment, then with 28.
pub fn multiply_loaded(
    sheet: &Sheet,
    images: &[[u32; 8]],
    parts: &[[u32; 8]],
) -> Result<[u32; 8], Refusal>
    requires { length parts.now ≡ length images.now }
    ensures { bad_team (length images.now) ≡ false
        → computed result ≡ answer (multiplying (values_of sheet.now) (length images.now) images.now parts.now) }
{
    let h = sheet.header;
    test_images(sheet, images)?;
    if some_non_element_part(h, parts) {
        return Err(Refusal::Commitment);
    }
    test_product(sheet, images)?;
    Ok(multiply_all(h, parts))
}

// The players' responses joined, refused with 11, then with 16 for a slot of any player's response, then with 28.
// It is no one function with `multiply_loaded`: a test, a refusal and what is computed differ, and handing on all three is no plainer.
pub fn join_loaded(
    sheet: &Sheet,
    images: &[[u32; 8]],
    parts: &[[u32; 8]],
) -> Result<[u32; 8], Refusal>
    requires { (length images.now ≤ 8) × (length parts.now ≡ length images.now) }
    ensures { bad_team (length images.now) ≡ false
        → computed result ≡ answer (joining (values_of sheet.now) (length images.now) images.now parts.now) }
{
    let h = sheet.header;
    test_images(sheet, images)?;
    if some_non_coordinate_part(h, parts) {
        return Err(Refusal::Slot);
    }
    test_product(sheet, images)?;
    Ok(join_all(h, parts))
}
