// The files that the programs read, and the text that they print. What is kept of a file is a struct with private fields: no other crate
// makes or changes one, so a program hands on what was read, all of it, and nothing else.
#![tactic(auto)]

mod kept; // kept.rt: what is kept of a file
mod named; // named.rt: the files that the programs read
mod printing; // printing.rt: writing a program's text to standard output
mod reading; // reading.rt: a file's first bytes, and its length

pub use kept::{Counted, Kept};
pub use named::{
    LEVEL, ROUNDS, SHEET, count_rounds, count_sheet, read_level, read_rounds, read_sheet,
};
pub use printing::print_text;
pub use reading::read_file;
