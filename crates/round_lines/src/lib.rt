// The marker's lines (01, "The marker's lines"): of a word and a number, of each round of a file, and the last; and the verdict
// on a round of a file.
#![tactic(auto)]

mod lines; // lines.rt: the text of one line
mod rounds; // rounds.rt: a line for each round

pub use lines::{write_line, write_result};
pub use rounds::{Written, verdict_at, write_rounds};
