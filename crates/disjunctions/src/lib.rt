// The OR proof (02, card 4), "I know a witness of one of two sheets": definitions and their laws. The sides are numbered 0 and 1,
// and what belongs to them is called first and second.
#![tactic(auto)]

use types::ProverPhase;

// A round: both commitments, both responses, the challenge c and the first side's own challenge c0.
#[repr(C)]
#[derive(Clone, Copy)]
pub struct OrRound {
    pub commitment0: [u32; 8],
    pub commitment1: [u32; 8],
    pub response0: [u32; 8],
    pub response1: [u32; 8],
    pub challenge: u32,
    pub challenge0: u32,
}

// What judging a round answers: accepted, rejected with the differing rows of both sides, bit i of a mask for row i and 0 for a side
// that is accepted, or refused with a number, of which `judge_or` and the laws under it speak.
#[derive(Clone, Copy)]
pub enum OrVerdict {
    OrAccepted,
    OrRejected(u32, u32),
    OrRefused(u32),
}

// What extracting answers: a witness, and the side that it is of. Sides are numbers, as C hands them in: any but 0 is side 1.
#[repr(C)]
#[derive(Clone, Copy)]
pub struct OrExtracted {
    pub values: [u32; 8],
    pub side: u32,
    pub refusal: u32,
}

// Peggy's session: the nonce of the side that she knows, the simulated response and challenge of the other, both commitments,
// and which side she knows.
#[derive(Clone, Copy)]
pub struct OrProver {
    pub nonce: [u32; 8],
    pub response: [u32; 8],
    pub commitment0: [u32; 8],
    pub commitment1: [u32; 8],
    pub challenge: u32,
    pub side: u32,
    pub phase: ProverPhase,
}

// What a call on Peggy's session answers: the session handed back, and both commitments, or both responses with c0. The laws speak of
// a refusal as its number.
#[derive(Clone, Copy)]
pub struct OrStep {
    pub session: OrProver,
    pub values0: [u32; 8],
    pub values1: [u32; 8],
    pub challenge0: u32,
    pub refusal: u32,
}
