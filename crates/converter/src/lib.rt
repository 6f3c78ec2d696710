// The converter of round files (02, card 7): the rounds of a file of one version, written in the other.
#![tactic(auto)]

mod calls; // calls.rt: the converter on a sheet's bytes
mod converting; // converting.rt: the converter for loaded fixed fields
mod records; // records.rt: the records of a file, read over one width and stored over the other

pub use calls::convert;
