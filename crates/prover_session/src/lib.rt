// Peggy's whole session, in the form in which it crosses (01, "Sessions"; 02, card 13): new, commit, respond, drop, save, return.
#![tactic(auto)]

mod committing; // committing.rt: committing
mod responding; // responding.rt: responding
mod saving; // saving.rt: saving under a name and returning
mod session; // session.rt: a new session, and dropping one

pub use committing::commit;
pub use responding::respond;
pub use saving::{return_to, save};
pub use session::{drop_session, new};
