// The parts of a watch (02, card 9): the sheet's bytes that it holds, and the rounds that it remembers.
#![tactic(auto)]

mod bytes; // bytes.rt: the sheet's bytes
mod rounds; // rounds.rt: the remembered rounds

pub use bytes::{fresh, held_bytes, is_watched};
pub use rounds::{behind, nearest, one_more, padded};
