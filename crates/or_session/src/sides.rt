// Choosing by the side that Peggy knows, and the commitment and the response of a side (02, card 4).
// A side is a number, as C hands it in: any but 0 is side 1.
ghost use Rattle.std.specs.Prelude.{◌≡◌, ◌≤◌, ◌<◌};
ghost use Rattle.lists.specs.Places.{pad8};
ghost use Rattle.instance.specs.Values.{values_of};
ghost use Rattle.disjunctions.specs.Prover.{own};
ghost use Rattle.or_session.specs.Sides.{side_commitment, side_response};

use comparison::first_places;
use image::{image, response};
use instance::Sheet;
use protocol::simulated;
use types::Header;

// Of two values that of the side, every side but 0 being 1.
pub fn own<T: Copy>(side: u32, first: T, second: T) -> T
    ensures { result ≡ own side first second }
{
    if side == 0 { first } else { second }
}

// The commitment of a side: where Peggy knows it the image of the nonce, else the simulated commitment of the challenge and the
// response.
pub fn side_commitment(
    sheet: &Sheet,
    known: bool,
    nonce: [u32; 8],
    challenge: u32,
    response: [u32; 8],
) -> [u32; 8]
    requires { challenge < sheet.now.header.challenges }
    ensures { result ≡ pad8 0 (side_commitment known (values_of sheet.now) nonce challenge response) }
{
    if known {
        let entries = sheet.entries;
        return image(sheet.header, entries, nonce);
    }
    simulated(sheet, challenge, response)
}

// The response of a side: where Peggy knows it that of the nonce to the challenge that is left, else the simulated one.
pub fn side_response(
    h: Header,
    known: bool,
    nonce: [u32; 8],
    challenge: u32,
    witness: [u32; 8],
    simulated: [u32; 8],
) -> [u32; 8]
    requires { (0 < h.modulus) × (0 < h.order) × (h.columns ≤ 8) }
    ensures { result ≡ pad8 0 (side_response known h nonce challenge witness simulated) }
{
    if known {
        return response(h, nonce, challenge, witness);
    }
    first_places(simulated, h.columns as usize)
}
