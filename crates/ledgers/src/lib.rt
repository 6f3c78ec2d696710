// A ledger of committed values (02, card 14): its structs, definitions and laws. The structs are plain numbers with the layout of C, so
// that they cross to other languages as they are.
#![tactic(auto)]

// What all lines of a ledger share: the public values g and h, the modulus m, the order q and the challenge count K.
#[repr(C)]
#[derive(Clone, Copy)]
pub struct Base {
    pub g: u32,
    pub h: u32,
    pub modulus: u32,
    pub order: u32,
    pub challenges: u32,
}

// A line of kind 1, a commitment, 2, the sum of the two lines that it names, or 3, their product, with its own commitment and a round
// of the product statement: t, c and r.
#[repr(C)]
#[derive(Clone, Copy)]
pub struct Line {
    pub kind: u32,
    pub first: u32,
    pub second: u32,
    pub commitment: u32,
    pub t: [u32; 2],
    pub challenge: u32,
    pub response: [u32; 3],
}

// A ledger: room for 64 lines, and how many there are.
#[repr(C)]
#[derive(Clone, Copy)]
pub struct Ledger {
    pub lines: [Line; 64],
    pub count: u32,
}

// What checking a ledger answers: accepted is 1, or 0 with the first product line whose round is rejected.
#[repr(C)]
#[derive(Clone, Copy)]
pub struct Checked {
    pub accepted: u32,
    pub line: u32,
    pub refusal: u32,
}

// What the writer takes for a line: its kind; for 2 and 3 the two lines; for 1 a value and its blinding number ρ; for 3 a blinding
// number, three nonce slots and a challenge.
#[repr(C)]
#[derive(Clone, Copy)]
pub struct Entry {
    pub kind: u32,
    pub first: u32,
    pub second: u32,
    pub value: u32,
    pub blinding: u32,
    pub nonce: [u32; 3],
    pub challenge: u32,
}

// What the writer takes: room for 64 entries, and how many there are.
#[repr(C)]
#[derive(Clone, Copy)]
pub struct Entries {
    pub entries: [Entry; 64],
    pub count: u32,
}

// What the writer answers.
#[repr(C)]
#[derive(Clone, Copy)]
pub struct LedgerWritten {
    pub ledger: Ledger,
    pub refusal: u32,
}
