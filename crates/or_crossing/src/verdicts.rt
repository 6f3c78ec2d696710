// What judging answers, as four numbers.
ghost use Rattle.std.specs.Prelude.{◌≡◌};
ghost use Rattle.or_crossing.specs.Verdicts.{or_judgement};

use crate::OrJudgement;
use disjunctions::OrVerdict;

impl From<OrVerdict> for OrJudgement {
    ghost from_gives = { λ verdict told. told ≡ or_judgement verdict };

    // The four numbers of a verdict.
    fn from(verdict: OrVerdict) -> OrJudgement {
        match verdict {
            OrVerdict::OrAccepted => OrJudgement {
                accepted: 1,
                rows0: 0,
                rows1: 0,
                refusal: 0,
            },
            OrVerdict::OrRejected(rows0, rows1) => OrJudgement {
                accepted: 0,
                rows0,
                rows1,
                refusal: 0,
            },
            OrVerdict::OrRefused(number) => OrJudgement {
                accepted: 0,
                rows0: 0,
                rows1: 0,
                refusal: number,
            },
        }
    }
}
