// What the trials share: lines on standard output, and parts of a buffer and arrays to try the calls on.
#![tactic(auto)]

mod bytes; // bytes.rt: a part of a buffer, a byte of it, and arrays of eight places
mod print; // print.rt: lines on standard output

pub use bytes::{front, one, store, three};
pub use print::{answer, answer_line, length, line, loading, verdict};
