// The search of the game (02, card 12): whether the game is small enough, the candidates for a response, a table that is made once
// for a sheet, and in it the first candidate that answers a challenge.
#![tactic(auto)]

mod candidates; // candidates.rt: whether they are few enough, how many there are, and each of them
mod images; // images.rt: kind 1, by the images of all candidates
mod roots; // roots.rt: kind 2, by the smallest root of each number
mod search; // search.rt: the table and the search, of either kind

pub use candidates::{count_of, response_at, too_large};
pub use search::{first_answer, table_of};
