// Extracting a witness from two rounds (01, "A round"), on a sheet's bytes and for callers that have loaded the sheet.
#![tactic(auto)]

mod calls; // calls.rt: the call on a sheet's bytes
mod loaded; // loaded.rt: extracting on loaded values

pub use calls::extract;
pub use loaded::extract_loaded;
