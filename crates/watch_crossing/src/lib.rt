// What a watch answers to a round (02, card 9) in the form in which it crosses to other languages: a struct of numbers with the
// layout of C, since no enum crosses.
#![tactic(auto)]

ghost use Rattle.std.specs.Prelude.{◌≡◌};
ghost use Rattle.watch_crossing.specs.Answers.{watch_answer};

use crossing::Judgement;
use watches::{Watch, Watched};

// What a watch answers to a round: the watch handed back, the witness extracted from the round and the named one, by how many
// accepted rounds back that one stands, 0 for none, and the verdict.
#[repr(C)]
#[derive(Clone, Copy)]
pub struct WatchAnswer {
    pub watch: Watch,
    pub witness: [u32; 8],
    pub back: u32,
    pub verdict: Judgement,
}

impl From<Watched> for WatchAnswer {
    ghost from_gives = { λ told answer. answer ≡ watch_answer told };

    // The answer as it is handed out: the verdict is three numbers, and the rest is as it is.
    fn from(told: Watched) -> WatchAnswer {
        let watch = told.watch;
        let witness = told.witness;
        let verdict = told.verdict;
        WatchAnswer {
            watch,
            witness,
            back: told.back,
            verdict: Judgement::from(verdict),
        }
    }
}
