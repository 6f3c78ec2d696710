// One line of a ledger (02, card 14): what is asked of it, its commitment and the entries of its product statement; and the tests of
// what all lines share.
#![tactic(auto)]

mod asked; // asked.rt: what is asked of one line
mod kinds; // kinds.rt: the kind of a line
mod shared; // shared.rt: what all lines share
mod values; // values.rt: a line's commitment, and the product statement's entries

pub use asked::{bad_challenge, bad_elements, bad_kind, bad_response, not_above, some_high_slot};
pub use kinds::Kind;
pub use shared::{product_header, test_base};
pub use values::{line_commitment, product_entries, product_of_two};
