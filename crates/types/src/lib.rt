// The structs and enums of the calls. There are no functions here, so that the definitions speak of the very records
// that the code returns. A refusal is its number in 01, and 0 where nothing is refused. Structs of plain numbers have the
// layout of C, so that they cross to other languages as they are. Arrays stand first in a session and the refusal last in an
// answer, since copies are made in steps of 16 bytes and are quickest where arrays start at a step.
#![tactic(auto)]

// The fixed fields of a sheet: kind 1 (exponent) or 2 (root), the modulus m, the order q of kind 1 or the exponent e of
// kind 2, the challenge count K, the rows s and the columns n.
#[repr(C)]
#[derive(Clone, Copy)]
pub struct Header {
    pub kind: u32,
    pub modulus: u32,
    pub order: u32,
    pub challenges: u32,
    pub rows: u32,
    pub columns: u32,
}

// What loading a sheet answers, but for the entries, which are an array of arrays and stand beside it.
#[repr(C)]
#[derive(Clone, Copy)]
pub struct Loaded {
    pub header: Header,
    pub statement: [u32; 8],
    pub refusal: u32,
}

// What a call that writes into a lent buffer answers: the length of what stands in it.
#[repr(C)]
#[derive(Clone, Copy)]
pub struct Written {
    pub length: usize,
    pub refusal: u32,
}

// A round: commitment t, challenge c and response r.
#[repr(C)]
#[derive(Clone, Copy)]
pub struct Round {
    pub commitment: [u32; 8],
    pub challenge: u32,
    pub response: [u32; 8],
}

// How many rounds a round file has.
#[repr(C)]
#[derive(Clone, Copy)]
pub struct Counted {
    pub count: u32,
    pub refusal: u32,
}

// Where a part of the caller's own file stands: its first byte and how many bytes it has.
#[repr(C)]
#[derive(Clone, Copy)]
pub struct Part {
    pub offset: usize,
    pub length: usize,
}

// A round as it stands in a round file.
#[repr(C)]
#[derive(Clone, Copy)]
pub struct Fetched {
    pub round: Round,
    pub refusal: u32,
}

// What judging a round answers: accepted, rejected with the differing rows, bit i of a mask for row i, or refused with a number.
#[derive(Clone, Copy)]
pub enum Verdict {
    Accepted,
    Rejected(u32),
    Refused(u32),
}

// What simulating answers, a commitment, and what extracting answers, a witness.
#[repr(C)]
#[derive(Clone, Copy)]
pub struct Computed {
    pub values: [u32; 8],
    pub refusal: u32,
}

// The states of Peggy's session.
#[derive(Clone, Copy)]
pub enum ProverPhase {
    New,
    Committed,
    Answered,
    Dropped,
}

// A saved state of Peggy's session: kept is 0 where the name was never saved, and phase is a state's number.
#[repr(C)]
#[derive(Clone, Copy)]
pub struct Saved {
    pub nonce: [u32; 8],
    pub commitment: [u32; 8],
    pub phase: u32,
    pub kept: u32,
}

// A commitment that was answered.
#[repr(C)]
#[derive(Clone, Copy)]
pub struct Listed {
    pub commitment: [u32; 8],
}

// What Peggy's session keeps beside its state: the saved states by name, the answered commitments, and how many these are.
#[repr(C)]
#[derive(Clone, Copy)]
pub struct Memory {
    pub saved: [Saved; 8],
    pub answered: [Listed; 64],
    pub count: u32,
}

// Peggy's session.
#[derive(Clone, Copy)]
pub struct Prover {
    pub nonce: [u32; 8],
    pub commitment: [u32; 8],
    pub phase: ProverPhase,
    pub memory: Memory,
}

// What a call on Peggy's session answers: the session handed back, and a commitment or a response.
#[derive(Clone, Copy)]
pub struct ProverStep {
    pub session: Prover,
    pub values: [u32; 8],
    pub refusal: u32,
}

// The states of Vic's session.
#[derive(Clone, Copy)]
pub enum VerifierPhase {
    Waiting,
    Holding,
    Asked,
    Judged,
}

// Vic's session.
#[derive(Clone, Copy)]
pub struct Verifier {
    pub commitment: [u32; 8],
    pub challenge: u32,
    pub phase: VerifierPhase,
}

// What bringing a commitment or a challenge to Vic's session answers.
#[derive(Clone, Copy)]
pub struct VerifierStep {
    pub session: Verifier,
    pub refusal: u32,
}

// What bringing a response to Vic's session answers.
#[derive(Clone, Copy)]
pub struct VerifierVerdict {
    pub verdict: Verdict,
    pub session: Verifier,
}
