// Sheets and round files as bytes: definitions and their laws.
#![tactic(auto)]

// What comparing the commitments of two rounds of a file answers: 1 where they are the same, 0 where they are not.
#[repr(C)]
#[derive(Clone, Copy)]
pub struct Compared {
    pub same: u32,
    pub refusal: u32,
}
