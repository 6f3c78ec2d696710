// The forms in which a sheet's table of entries crosses to other languages.
#![tactic(auto)]

mod table; // table.rt: a sheet's entries as rows and as one run of numbers

pub use table::{square, store_entries};
