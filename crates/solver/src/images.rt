// Kind 1: the images of all candidates, one after another, each with a value for each row, and the search for one of them.
ghost use Rattle.std.specs.Prelude.{◌*◌, ◌≤◌, ◌≡◌, length};
ghost use Rattle.solver.specs.Match.{first_match, found};
ghost use Rattle.solver.specs.Prepared.{Images};
ghost use Rattle.solver.specs.Small.{Small};

use crate::candidates::{count_of, response_at};
use image::row_image;
use types::Header;

// Puts the images of all candidates at the start of the table: value j is row j % s of the image of candidate j / s.
pub fn fill_images(h: Header, entries: [[u32; 8]; 8], table: &mut [u32])
    requires { Small h × (h.kind ≡ 1) × (length table.old ≡ 32768) }
    ensures { Images h entries table.new }
{
    let rows = h.rows as usize;
    let values = count_of(h) as usize * rows;
    for j in 0..values {
        let response = response_at(h, (j / rows) as u32);
        table[j] = row_image(h, entries, response, j % rows);
    }
}

// The first of count candidates whose image in the table is the expected one, if there is one.
pub fn first_match(table: &[u32; 32768], count: u32, rows: usize, expected: [u32; 8]) -> Option<u32>
    requires { (rows ≤ 8) × (count * rows ≤ 32768) }
    ensures { result ≡ found count (first_match table.now count rows expected) }
{
    for k in 0..count {
        let start = k as usize * rows;
        if (0..rows).all(|i| table[start + i] == expected[i]) {
            return Some(k);
        }
    }
    None
}
