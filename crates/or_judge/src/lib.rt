// Judging a round of the OR proof (02, card 4). The tests of a round and the verdict on both sides are for callers that have
// loaded the sheets too.
#![tactic(auto)]

mod calls; // calls.rt: the call on two sheets' bytes
mod rounds; // rounds.rt: the tests of a round
mod sides; // sides.rt: the verdict on both sides of a round

pub use calls::judge;
pub use rounds::test_round;
pub use sides::verdict_or;
