// Writing a ledger of committed values (02, card 14): the commitments and the honest rounds of all lines in one call.
#![tactic(auto)]

mod calls; // calls.rt: the call
mod made; // made.rt: the lines that are made
mod opened; // opened.rt: what a line opens to, and its commitment

pub use calls::write;
