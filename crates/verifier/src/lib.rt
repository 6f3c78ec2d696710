// Vic's session (01, "Sessions"): new, commitment, challenge, response.
#![tactic(auto)]

mod answers; // answers.rt: what the calls answer
mod calls; // calls.rt: a new session, and the calls on a sheet's bytes
mod loaded; // loaded.rt: the calls for a loaded sheet, and their tests

pub use calls::{new, take_challenge, take_commitment, take_response};
