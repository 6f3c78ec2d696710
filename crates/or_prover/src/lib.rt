// Committing and responding in Peggy's session of the OR proof (02, card 4).
#![tactic(auto)]

mod calls; // calls.rt: the calls on two sheets' bytes
mod loaded; // loaded.rt: committing and responding on two sheets that have loaded

pub use calls::{commit, respond};
