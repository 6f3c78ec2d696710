// The calls on a watch for used nonces (02, card 9).
ghost use Rattle.std.specs.Prelude.{◌≡◌};
ghost use Rattle.watches.specs.Watch.{open_watch, watch_round};
ghost use Rattle.watch_crossing.specs.Answers.{watch_answer};

use types::Round;
use watch_crossing::WatchAnswer;
use watches::{Opened, Watch};

// Opens a watch on a sheet. If the sheet is refused, with 2 to 11, the watch beside the number has no bytes and fits no sheet.
#[unsafe(no_mangle)]
pub extern "C" fn dimkhoros_watch_open(sheet: &[u8]) -> Opened
    ensures { result ≡ open_watch sheet.now }
{
    watch::open(sheet)
}

// Gives a watch a round. An accepted round is remembered, and the answer says by how many accepted rounds back the nearest remembered
// round with the same commitment and another challenge stands, 0 for none, and has the witness of the two. A rejected round, and one
// that is refused, with 2 to 11, 14 to 16 or 21, leaves the watch as it is, beside zeros.
#[unsafe(no_mangle)]
pub extern "C" fn dimkhoros_watch_round(sheet: &[u8], watch: Watch, round: Round) -> WatchAnswer
    ensures { result ≡ watch_answer (watch_round sheet.now watch round) }
{
    WatchAnswer::from(watch::hear(sheet, watch, round))
}
