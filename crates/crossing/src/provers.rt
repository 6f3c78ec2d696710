// The states of Peggy's session as numbers.
ghost use Rattle.std.specs.Prelude.{◌≡◌};
ghost use Rattle.runs.specs.Prover.{prover_state};
ghost use Rattle.runs.specs.Saving.{prover_phase};

use types::ProverPhase;

// The state of a number; a number that is no state's is taken as Dropped.
// A function and no From: From and the enum belong to other crates.
pub fn prover_phase(number: u32) -> ProverPhase
    ensures { result ≡ prover_phase number }
{
    match number {
        0 => ProverPhase::New,
        1 => ProverPhase::Committed,
        2 => ProverPhase::Answered,
        3..=u32::MAX => ProverPhase::Dropped,
    }
}

// The number of a state: its place in 01's sentence, from 0.
pub fn prover_state(phase: ProverPhase) -> u32
    ensures { result ≡ prover_state phase }
{
    phase as u32
}
