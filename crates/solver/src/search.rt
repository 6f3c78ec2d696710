// The table of a sheet, and in it the search for the first candidate that answers a challenge.
// That a game is small is a clause and no type, since its one caller tests it once.
ghost use Rattle.std.specs.Prelude.{ℕ, ◌<◌, false, ◌≡◌, List};
ghost use Rattle.sigma.specs.Instance.{instance_with};
ghost use Rattle.sigma.specs.Round.{bad_commitment};
ghost use Rattle.sigma.specs.Valid.{Valid};
ghost use Rattle.games.specs.Text.{candidates, first_answer};
ghost use Rattle.solver.specs.Match.{found};
ghost use Rattle.solver.specs.Prepared.{Prepared};
ghost use Rattle.solver.specs.Small.{Small};

use crate::candidates::count_of;
use crate::images::{fill_images, first_match};
use crate::roots::fill_roots;
use image::expected_image;
use types::Header;

// Makes the table that the search of a sheet looks into: the images of all candidates in kind 1, the smallest roots in kind 2.
pub fn table_of(h: Header, entries: [[u32; 8]; 8], table: &mut [u32; 32768])
    requires { Small h }
    ensures { Prepared h entries table.new }
{
    if h.kind == 1 {
        fill_images(h, entries, table);
        return;
    }
    fill_roots(h, table);
}

// The first candidate that answers the challenge on the commitment, if one does, by the table of the sheet.
pub fn first_answer(
    h: Header,
    statement: [u32; 8],
    commitment: [u32; 8],
    challenge: u32,
    table: &[u32; 32768],
) -> Option<u32>
    requires { Small h }
    ensures { (entries : List (List ℕ)) → Valid (instance_with h entries statement)
        → bad_commitment (instance_with h entries statement) commitment ≡ false → challenge < h.challenges
        → Prepared h entries table.now
        → result ≡ found (candidates h) (first_answer (instance_with h entries statement) commitment challenge) }
{
    let expected = expected_image(h, statement, commitment, challenge);
    if h.kind == 1 {
        return first_match(table, count_of(h), h.rows as usize, expected);
    }
    let root = table[expected[0] as usize];
    if root == 0 {
        return None;
    }
    Some(root)
}
