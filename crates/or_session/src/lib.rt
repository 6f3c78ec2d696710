// Peggy's session of the OR proof (02, card 4), but for the two calls that take sheets: what takes no sheet, and her two sides on
// sheets that have loaded. Of the side that she knows she makes the commitment and the response, of the other she simulates them.
#![tactic(auto)]

mod held; // held.rt: the tests of what is brought by its side, and of what a session holds
mod session; // session.rt: a new session, the answer of a call, a wiped session, and dropping
mod sides; // sides.rt: choosing by the side, and what each side commits and responds

pub use held::{bad_slots, test_witness, unfit};
pub use session::{drop_session, new, refused, stepped, wiped};
pub use sides::{own, side_commitment, side_response};
