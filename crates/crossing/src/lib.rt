// Verdicts and sessions in the forms in which they cross to other languages: structs of numbers with the layout of C, since no
// enum crosses.
#![tactic(auto)]

mod provers; // provers.rt: the states of Peggy's session
mod verdicts; // verdicts.rt: what judging answers
mod verifiers; // verifiers.rt: Vic's session

pub use provers::{prover_phase, prover_state};
use types::Memory;
pub use verifiers::{verifier_answer, verifier_judgement};

// A verdict: accepted is 1, rejected is 0 with the mask of the rows that differ, bit i for row i, and refused is the number beside
// zeros.
#[repr(C)]
#[derive(Clone, Copy)]
pub struct Judgement {
    pub accepted: u32,
    pub rows: u32,
    pub refusal: u32,
}

// Peggy's session: the phase is 0 for New, 1 for Committed, 2 for Answered, 3 for Dropped. Any other number is taken as Dropped.
#[repr(C)]
#[derive(Clone, Copy)]
pub struct ProverSession {
    pub nonce: [u32; 8],
    pub commitment: [u32; 8],
    pub phase: u32,
    pub memory: Memory,
}

// What a call on Peggy's session answers: the session handed back, and a commitment or a response.
#[repr(C)]
#[derive(Clone, Copy)]
pub struct ProverAnswer {
    pub session: ProverSession,
    pub values: [u32; 8],
    pub refusal: u32,
}

// Vic's session: the phase is 0 for Waiting, 1 for Holding, 2 for Asked, 3 for Judged. Any other number is a state that allows
// no call.
#[repr(C)]
#[derive(Clone, Copy)]
pub struct VerifierSession {
    pub commitment: [u32; 8],
    pub challenge: u32,
    pub phase: u32,
}

// What bringing a commitment or a challenge to Vic's session answers.
#[repr(C)]
#[derive(Clone, Copy)]
pub struct VerifierAnswer {
    pub session: VerifierSession,
    pub refusal: u32,
}

// What bringing a response to Vic's session answers.
#[repr(C)]
#[derive(Clone, Copy)]
pub struct VerifierJudgement {
    pub verdict: Judgement,
    pub session: VerifierSession,
}
