// The calls on a sheet's bytes: each loads the sheet, and a refused sheet's number is its answer.
// C reads the answers, so a refusal stands in them as a number.
ghost use Rattle.std.specs.Prelude.{◌≡◌};
ghost use Rattle.watches.specs.Watch.{open_watch, watch_round};

use crate::loaded::hear_loaded;
use instance::Sheet;
use types::{Round, Verdict};
use watch_parts::{behind, fresh, held_bytes, is_watched, one_more, padded};
use watches::{Opened, Watch, Watched};

// Opens a watch on a sheet. If the sheet is refused, with 2 to 11, the watch beside the number has no bytes.
pub fn open(sheet: &[u8]) -> Opened
    ensures { result ≡ open_watch sheet.now }
{
    match Sheet::load(sheet) {
        Ok(_) => Opened {
            watch: fresh(held_bytes(sheet), sheet.len() as u32),
            refusal: 0,
        },
        Err(refusal) => Opened {
            watch: fresh([0u8; 308], 0),
            refusal: refusal.number(),
        },
    }
}

// Gives a watch a round. An accepted round is remembered in s, 1 and n places, and the answer names the nearest remembered round with
// the same commitment and another challenge and gives the witness of the two. A rejected round, and one that is refused, with 2 to 11
// for the sheet, 14 to 16 for the round or 21 for the watch, leaves the watch as it is.
pub fn hear(sheet: &[u8], mut watch: Watch, round: Round) -> Watched
    ensures { result ≡ watch_round sheet.now watch round }
{
    let loaded = match Sheet::load(sheet) {
        Ok(loaded) => loaded,
        Err(refusal) => {
            return Watched {
                watch,
                witness: [0u32; 8],
                back: 0,
                verdict: Verdict::Refused(refusal.number()),
            };
        }
    };
    let watched = is_watched(&watch, sheet);
    let told = hear_loaded(&loaded, &watch, watched, round);
    let witness = told.witness;
    let verdict = told.verdict;
    if let Verdict::Accepted = verdict {
        let next = behind(padded(loaded.header, round), &watch.rounds);
        watch.rounds = next;
        watch.count = one_more(watch.count);
    }
    Watched {
        watch,
        witness,
        back: told.back,
        verdict,
    }
}
