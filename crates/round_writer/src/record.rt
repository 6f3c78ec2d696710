// Storing one record of a round file, whose challenge has two or four bytes (01, "A round"; 02, card 7).
// The bounds of fixed fields are clauses and no type, since a `Sheet` would ask more of callers.
// Versions and widths are numbers, as in round_layout.
ghost use Rattle.std.specs.Prelude.{◌+◌, ◌≤◌, ◌≡◌, length};
ghost use Rattle.std.proofs.lemmas.List.Edits.{sets};
ghost use Rattle.encoding.specs.Bytes.{bytes_of};
ghost use Rattle.formats.specs.Append.{wide_challenge};
ghost use Rattle.formats.specs.RoundFile.{record_bytes, record_length};
ghost use Rattle.round_layout.specs.Width.{IsWidth};

use fields::{write_u16, write_u32, write_words};
use types::{Header, Round};

// Whether a record of a file of the version cannot hold a challenge: one above 65,535 in version 2.
pub fn wide_challenge(version: u32, challenge: u32) -> bool
    ensures { result ≡ wide_challenge version challenge }
{
    version == 2 && challenge > 65535
}

// Stores the last width bytes of a challenge in part from index at on, and changes no other byte.
fn write_challenge(part: &mut [u8], at: usize, width: usize, challenge: u32)
    requires width { IsWidth width }
    requires room { at + width ≤ length part.old }
    ensures stored { part.new ≡ sets part.old at (bytes_of width challenge) }
{
    if width == 2 {
        write_u16(part, at, challenge);
    } else {
        write_u32(part, at, challenge);
    }
}

// Stores a round at the start of part: the commitment, the challenge in width bytes and the response. No byte behind them is
// changed.
pub fn write_record(part: &mut [u8], h: Header, width: usize, round: Round)
    requires rows { h.rows ≤ 8 }
    requires columns { h.columns ≤ 8 }
    requires width { IsWidth width }
    requires room { record_length width h ≤ length part.old }
    ensures stored { part.new ≡ sets part.old 0 (record_bytes width h round) }
{
    let rows = h.rows as usize;
    let columns = h.columns as usize;
    let commitment = round.commitment;
    let response = round.response;
    write_words(part, 0, commitment, rows);
    write_challenge(part, 4 * rows, width, round.challenge);
    write_words(part, 4 * rows + width, response, columns);
}
