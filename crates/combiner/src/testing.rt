// The tests of a team (02, card 6): 27 between the two steps of testing the sheet, 2 to 9 and 10 and 11; and on loaded values 11 for
// the images, and 28 for their product. The tests of the parts, 14 or 16, come between these two.
ghost use Rattle.std.specs.Prelude.{◌≡◌, false, List, [], ◌∷◌, ◌++◌, ℕ, ◌≤◌, ◌<◌, length, IfOk};
ghost use Rattle.rules.specs.Rule.{◌when◌, lowest};
ghost use Rattle.sigma.specs.Admission.{element_rules};
ghost use Rattle.formats.specs.Load.{shape_rules};
ghost use Rattle.formats.specs.Sheet.{instance_of};
ghost use Rattle.refusals.specs.Number.{refused_with};
ghost use Rattle.instance.specs.Values.{values_of};
ghost use Rattle.products.specs.Team.{bad_product, bad_team, team_rules};

use crate::joining::multiply_all;
use crate::parts::some_non_element_part;
use comparison::differ;
use instance::Sheet;
use refusals::Refusal;

// Tests a team's size, which is refused with 27 outside 2 to 8.
fn test_size(count: u32) -> Result<(), Refusal>
    ensures { refused_with result ≡ lowest ((27 when bad_team count) ∷ []) }
{
    match count {
        2..=8 => Ok(()),
        _ => Err(Refusal::Team),
    }
}

// Loads the sheet of a team: its values, or why it is refused, with 2 to 9 for its shape, then with 27 for the team's size, then with
// 10 or 11 for its elements.
pub fn load_sized(sheet: &[u8], count: u32) -> Result<Sheet, Refusal>
    ensures number { refused_with result
        ≡ lowest (shape_rules sheet.now ++ (27 when bad_team count) ∷ element_rules (instance_of sheet.now)) }
    ensures values { IfOk result (λ values. values_of values ≡ instance_of sheet.now) }
{
    match Sheet::load(sheet) {
        Ok(loaded) => {
            test_size(count)?;
            Ok(loaded)
        }
        Err(refusal) => {
            if refusal.number() < Refusal::Entry.number() {
                return Err(refusal);
            }
            test_size(count)?;
            Err(refusal)
        }
    }
}

// Tests the players' images, which is refused with 11 for a value that is no group element.
pub fn test_images(sheet: &Sheet, images: &[[u32; 8]]) -> Result<(), Refusal>
    ensures { bad_team (length images.now) ≡ false
        → refused_with result ≡ lowest (team_rules (values_of sheet.now) (length images.now) images.now) }
{
    if some_non_element_part(sheet.header, images) {
        return Err(Refusal::Statement);
    }
    Ok(())
}

// Whether the players' images do not multiply to the statement, in some row.
fn bad_product(sheet: &Sheet, images: &[[u32; 8]]) -> bool
    ensures { result ≡ bad_product (values_of sheet.now) (length images.now) images.now }
{
    let h = sheet.header;
    differ(multiply_all(h, images), sheet.statement, h.rows as usize)
}

// Tests the product of the players' images, which is refused with 28 where it is not the statement.
pub fn test_product(sheet: &Sheet, images: &[[u32; 8]]) -> Result<(), Refusal>
    ensures { refused_with result ≡ lowest ((28 when bad_product (values_of sheet.now) (length images.now) images.now) ∷ []) }
{
    if bad_product(sheet, images) {
        return Err(Refusal::Image);
    }
    Ok(())
}
