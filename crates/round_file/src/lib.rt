// The calls that read a round file (01, "A round"). The functions on fixed fields are for callers that have loaded the sheet:
// those whose names end in `_in` are the same calls.
#![tactic(auto)]

mod calls; // calls.rt: the calls on a sheet's bytes
mod reading; // reading.rt: reading for loaded fixed fields

pub use calls::{check, count, locate, part, read};
pub use reading::{challenge_at, check_in, count_in, read_in, round_at};
