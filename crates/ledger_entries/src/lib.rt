// What a ledger is written from (02, card 14): the refusals of its entries.
#![tactic(auto)]

mod asked; // asked.rt: what is asked of the entries

pub use asked::test_entries;
