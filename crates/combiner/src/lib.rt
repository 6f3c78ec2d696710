// The combiner of a team (02, card 6): it multiplies the players' commitments and joins their responses. Both calls take the
// players' images too. The team is tested between the two steps of loading the sheet. What a player brings is a part, a row of an
// array, and rows beyond the count are not read.
#![tactic(auto)]

mod calls; // calls.rt: the calls on a sheet's bytes
mod joining; // joining.rt: parts multiplied and joined, place by place
mod loaded; // loaded.rt: multiplying and joining on a sheet's values
mod parts; // parts.rt: the tests of all parts
mod testing; // testing.rt: loading a team's sheet, and the tests of what its players bring

pub use calls::{commitment, response};
