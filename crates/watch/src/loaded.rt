// What is told of a round, on a sheet that has loaded (refusals 14 to 16 and 21).
ghost use Rattle.std.specs.Prelude.{◌≡◌, true, List, [], ℕ, ◌≤◌};
ghost use Rattle.types.specs.declared.Verdict.TheVariants.{Accepted};
ghost use Rattle.lists.specs.Places.{zeros8};
ghost use Rattle.sigma.specs.Judge.{judge_loaded};
ghost use Rattle.instance.specs.Values.{values_of};
ghost use Rattle.watches.specs.Watch.{is_watched, watch_after};
ghost use Rattle.watch.specs.Told.{told_of};

use extractor::extract_loaded;
use instance::Sheet;
use protocol::judge_loaded;
use refusals::Refusal;
use types::{Round, Verdict};
use watch_parts::nearest;
use watches::Watch;

// What is told of a round: the verdict, by how many accepted rounds back the named round stands, 0 for none, and the witness.
// As in `Watched`, of which the laws speak, back is 0 and the witness zeros if no round is named.
#[derive(Clone, Copy)]
pub struct Told {
    pub witness: [u32; 8],
    pub back: u32,
    pub verdict: Verdict,
}

// A verdict and no named round.
fn unnamed(verdict: Verdict) -> Told
    ensures { result ≡ record { witness = zeros8; back = 0; verdict = verdict } }
{
    Told {
        witness: [0u32; 8],
        back: 0,
        verdict,
    }
}

// What is told of an accepted round by a watch of the sheet: the nearest remembered round with the same commitment and another
// challenge and the witness of the two, 21 if that round is not accepted, and no round if there is none.
fn named(sheet: &Sheet, watch: &Watch, round: Round) -> Told
    requires { watch.now.count ≤ 63 }
    ensures { (bytes : List ℕ) → is_watched watch.now bytes ≡ true → judge_loaded (values_of sheet.now) round ≡ Accepted
        → result ≡ told_of (watch_after [] bytes (values_of sheet.now) watch.now round) }
{
    let Some(i) = nearest(sheet.header, &watch.rounds, watch.count, round) else {
        return unnamed(Verdict::Accepted);
    };
    let other = watch.rounds[i];
    let Verdict::Accepted = judge_loaded(sheet, other) else {
        return unnamed(Verdict::Refused(Refusal::Session.number()));
    };
    let witness = extract_loaded(sheet, round, other).unwrap_or([0u32; 8]);
    Told {
        witness,
        back: i as u32 + 1,
        verdict: Verdict::Accepted,
    }
}

// What is told of a round: refused with 14 to 16, then with 21 by a watch of other bytes or of more than 63 rounds, else its verdict,
// and what an accepted round names.
pub fn hear_loaded(sheet: &Sheet, watch: &Watch, watched: bool, round: Round) -> Told
    ensures { (bytes : List ℕ) → watched ≡ is_watched watch.now bytes
        → result ≡ told_of (watch_after [] bytes (values_of sheet.now) watch.now round) }
{
    let verdict = judge_loaded(sheet, round);
    if let Verdict::Refused(number) = verdict {
        return unnamed(Verdict::Refused(number));
    }
    if !watched {
        return unnamed(Verdict::Refused(Refusal::Session.number()));
    }
    if watch.count > 63 {
        return unnamed(Verdict::Refused(Refusal::Session.number()));
    }
    let Verdict::Accepted = verdict else {
        return unnamed(verdict);
    };
    named(sheet, watch, round)
}
