// What the calls answer: a refused call hands back the session unchanged.
// The records are those that the laws speak of, in which a refusal is its number.
ghost use Rattle.std.specs.Prelude.{◌≡◌};
ghost use Rattle.verifier.specs.Steps.{taken, judged};

use refusals::Refusal;
use types::{Verdict, Verifier, VerifierStep, VerifierVerdict};

// What bringing a commitment or a challenge answers.
pub fn taken(session: Verifier, outcome: Result<Verifier, Refusal>) -> VerifierStep
    ensures { result ≡ taken session outcome }
{
    match outcome {
        Ok(session) => VerifierStep {
            session,
            refusal: 0,
        },
        Err(refusal) => VerifierStep {
            session,
            refusal: refusal.number(),
        },
    }
}

// What bringing a response answers.
pub fn judged(session: Verifier, outcome: Result<VerifierVerdict, Refusal>) -> VerifierVerdict
    ensures { result ≡ judged session outcome }
{
    match outcome {
        Ok(told) => told,
        Err(refusal) => VerifierVerdict {
            verdict: Verdict::Refused(refusal.number()),
            session,
        },
    }
}
