// A watch for used nonces (02, card 9): opening it on a sheet, and giving it a round.
#![tactic(auto)]

mod calls; // calls.rt: the calls on a sheet's bytes
mod loaded; // loaded.rt: what is told of a round, on loaded values

pub use calls::{hear, open};
