// The calls of 01 and 02 and the library's version, for programs in other languages: each export of a call hands its arguments
// to the call and its answer back, in forms that cross.
#![tactic(auto)]

mod accounting; // accounting.rt: the calls on a ledger of committed values
mod explaining; // explaining.rt: the reason
mod judging; // judging.rt: the calls on a round's values
mod marking; // marking.rt: the marker's text
mod or_judging; // or_judging.rt: the calls on rounds of the OR proof
mod or_proving; // or_proving.rt: the calls on Peggy's session of the OR proof
mod playing; // playing.rt: the game's text
mod proving; // proving.rt: the calls on Peggy's session
mod rounds; // rounds.rt: the calls on round files
mod sheets; // sheets.rt: the calls on sheets
mod team; // team.rt: the calls of a team's combiner
mod verifying; // verifying.rt: the calls on Vic's session
mod version; // version.rt: the library's version
mod watching; // watching.rt: the calls on a watch for used nonces
