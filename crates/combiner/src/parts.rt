// Tests of what all players of a team bring (02, card 6): group elements, and domain slots.
// These read fixed fields alone, so they take a `Header` with its bounds, and not a whole `Sheet`.
ghost use Rattle.std.specs.Prelude.{◌≡◌, ◌≤◌, ◌<◌, length};
ghost use Rattle.numbers.specs.Search.{any};
ghost use Rattle.combiner.specs.Parts.{non_coordinate_part, non_element_part};

use modular::{some_non_coordinate, some_non_element};
use types::Header;

// Whether some value of the parts, of an image or a commitment each, is no group element.
pub fn some_non_element_part(h: Header, parts: &[[u32; 8]]) -> bool
    requires { (0 < h.modulus) × (h.rows ≤ 8) }
    ensures { result ≡ any (length parts.now) (non_element_part h parts.now) }
{
    parts
        .iter()
        .any(|part| some_non_element(h, *part, h.rows as usize))
}

// Whether some slot of the parts, of a response each, is no domain slot.
pub fn some_non_coordinate_part(h: Header, parts: &[[u32; 8]]) -> bool
    requires { (0 < h.modulus) × (h.columns ≤ 8) }
    ensures { result ≡ any (length parts.now) (non_coordinate_part h parts.now) }
{
    parts
        .iter()
        .any(|part| some_non_coordinate(h, *part, h.columns as usize))
}
