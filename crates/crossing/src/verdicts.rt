// What judging answers, as three numbers.
ghost use Rattle.std.specs.Prelude.{◌≡◌};
ghost use Rattle.crossing.specs.Verdicts.{judgement};

use crate::Judgement;
use types::Verdict;

impl From<Verdict> for Judgement {
    ghost from_gives = { λ verdict told. told ≡ judgement verdict };

    // The three numbers of a verdict.
    fn from(verdict: Verdict) -> Judgement {
        match verdict {
            Verdict::Accepted => Judgement {
                accepted: 1,
                rows: 0,
                refusal: 0,
            },
            Verdict::Rejected(rows) => Judgement {
                accepted: 0,
                rows,
                refusal: 0,
            },
            Verdict::Refused(number) => Judgement {
                accepted: 0,
                rows: 0,
                refusal: number,
            },
        }
    }
}
