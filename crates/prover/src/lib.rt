// Committing and responding (01, "Sessions"; 02, card 13) by the parts of Peggy's session that they read. The whole session stands in
// prover_session.
#![tactic(auto)]

mod calls; // calls.rt: the calls on a sheet's bytes
mod list; // list.rt: the list of answered commitments
mod loaded; // loaded.rt: the calls on loaded values

pub use calls::{commit, respond};
use types::ProverPhase;

// Peggy's session without its memory: her state beside the nonce and the commitment that she holds.
#[derive(Clone, Copy)]
pub struct Held {
    pub nonce: [u32; 8],
    pub commitment: [u32; 8],
    pub phase: ProverPhase,
}

// What committing gives: the nonce and the commitment that the session then holds.
#[derive(Clone, Copy)]
pub struct Committing {
    pub nonce: [u32; 8],
    pub commitment: [u32; 8],
}
