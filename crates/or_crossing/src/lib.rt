// The OR proof's verdict and Peggy's session of it (02, card 4) in the forms in which they cross to other languages: structs of
// numbers with the layout of C, since no enum crosses.
#![tactic(auto)]

mod provers; // provers.rt: Peggy's session
mod verdicts; // verdicts.rt: what judging answers

pub use provers::or_answer;

// A verdict: accepted is 1, rejected is 0 with the masks of both sides' rows that differ, bit i for row i, 0 for a side that is
// accepted, and refused is the number beside zeros.
#[repr(C)]
#[derive(Clone, Copy)]
pub struct OrJudgement {
    pub accepted: u32,
    pub rows0: u32,
    pub rows1: u32,
    pub refusal: u32,
}

// Peggy's session: the nonce of the side that she knows, the simulated response and challenge of the other, both commitments,
// and which side she knows. The phase is 0 for New, 1 for Committed, 2 for Answered, 3 for Dropped. Any other number is a state
// that allows no call.
#[repr(C)]
#[derive(Clone, Copy)]
pub struct OrSession {
    pub nonce: [u32; 8],
    pub response: [u32; 8],
    pub commitment0: [u32; 8],
    pub commitment1: [u32; 8],
    pub challenge: u32,
    pub side: u32,
    pub phase: u32,
}

// What a call on Peggy's session answers: the session handed back, and both commitments, or both responses with c0.
#[repr(C)]
#[derive(Clone, Copy)]
pub struct OrAnswer {
    pub session: OrSession,
    pub values0: [u32; 8],
    pub values1: [u32; 8],
    pub challenge0: u32,
    pub refusal: u32,
}
