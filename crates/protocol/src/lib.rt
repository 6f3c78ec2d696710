// Judging a round and simulating a commitment (01, "A round"). Judging a round, its tests alone and the simulated commitment are for
// callers that have loaded the sheet too.
#![tactic(auto)]

mod calls; // calls.rt: the calls on a sheet's bytes
mod loaded; // loaded.rt: judging, its tests, and simulating, on loaded values

pub use calls::{judge, simulate};
pub use loaded::{judge_loaded, simulated, test_round};
