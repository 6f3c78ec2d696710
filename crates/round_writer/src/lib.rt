// Making a round file and appending to it (01, "A round"; 02, card 7).
#![tactic(auto)]

mod calls; // calls.rt: the record writer on a sheet's bytes
mod record; // record.rt: storing one record, over the width of its challenge
mod writing; // writing.rt: the file of no rounds, and the record writer for loaded fixed fields

pub use calls::append;
pub use record::{wide_challenge, write_record};
pub use writing::empty;
