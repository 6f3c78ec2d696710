// Checking a ledger of committed values (02, card 14).
#![tactic(auto)]

mod calls; // calls.rt: the call
mod judging; // judging.rt: the rounds of product lines
mod searches; // searches.rt: what is asked of all lines

pub use calls::check;
