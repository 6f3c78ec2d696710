// The calls of a team's combiner. The players' rows of eight stand one behind the other, 64 numbers in all.
ghost use Rattle.std.specs.Prelude.{◌≡◌};
ghost use Rattle.products.specs.Team.{join_responses, multiply_commitments};
ghost use Rattle.tables.specs.Flat.{square};

use types::Computed;

// The commitments of a team's players multiplied, given the players' images; zeros beside the number, 2 to 9, 27, 10, 11, 14 or 28,
// where it is refused. Rows beyond the count are not read.
#[unsafe(no_mangle)]
pub extern "C" fn dimkhoros_team_commitment(
    sheet: &[u8],
    count: u32,
    images: &[u32; 64],
    commitments: &[u32; 64],
) -> Computed
    ensures { result ≡
        multiply_commitments sheet.now count (square images.now) (square commitments.now) }
{
    combiner::commitment(
        sheet,
        count,
        tables::square(images),
        tables::square(commitments),
    )
}

// The responses of a team's players joined, given the players' images; zeros beside the number, 2 to 9, 27, 10, 11, 16 or 28, where
// it is refused. Rows beyond the count are not read.
#[unsafe(no_mangle)]
pub extern "C" fn dimkhoros_team_response(
    sheet: &[u8],
    count: u32,
    images: &[u32; 64],
    responses: &[u32; 64],
) -> Computed
    ensures { result ≡
        join_responses sheet.now count (square images.now) (square responses.now) }
{
    combiner::response(
        sheet,
        count,
        tables::square(images),
        tables::square(responses),
    )
}
