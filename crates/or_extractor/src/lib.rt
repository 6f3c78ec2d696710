// Extracting a witness of one of two sheets from two rounds of the OR proof (02, card 4).
#![tactic(auto)]

mod calls; // calls.rt: the call on two sheets' bytes
mod loaded; // loaded.rt: extracting on loaded values
mod rounds; // rounds.rt: the tests of two rounds

pub use calls::extract;
