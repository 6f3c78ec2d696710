// Why a call is refused (01, "Turned back"; 02, whose cards put their numbers in): an enum with a number for each, and the records of
// what a call gives.
#![tactic(auto)]

mod records; // records.rt: a result as the record that crosses to other languages

ghost use Rattle.std.specs.Prelude.{◌≡◌};
ghost use Rattle.refusals.specs.Number.{number};

pub use records::{computed, not_computed, not_written, written};

// Why a call is refused. The number of each is the one that 01 or 02 gives it.
#[derive(Clone, Copy, PartialEq, Eq, Debug)]
pub enum Refusal {
    // The pattern's number is above the file's count, or the maker gets another number of public or statement values than it takes.
    Pattern = 1,
    // The sheet has fewer than 20 bytes, or another mark.
    Start = 2,
    // The sheet's version is not 1.
    Version = 3,
    // The kind is neither 1 nor 2.
    Kind = 4,
    // The modulus is below 3.
    Modulus = 5,
    // The order or exponent is below 2.
    Order = 6,
    // Rows or columns are outside 1 to 8, or differ in kind 2.
    Size = 7,
    // The challenge count is below 2 or above 65,536, or a number from 2 on below it divides the order or exponent.
    Count = 8,
    // The sheet's length is not what its fixed fields give.
    Length = 9,
    // An entry, a public value, a generator, or g or h of a ledger is no group element.
    Entry = 10,
    // A statement value, or a value of a player's image, is no group element.
    Statement = 11,
    // The round file has too few bytes, another mark, version, count or length, or cannot take a round more.
    File = 12,
    // The round's number is the file's count or more.
    Round = 13,
    // A commitment value is no group element.
    Commitment = 14,
    // A challenge is as large as the challenge count or larger, or too large for the file that it is written to.
    Challenge = 15,
    // A slot of a witness, nonce or response is no domain slot, or a number of a ledger is as large as the order or larger.
    Slot = 16,
    // The image of the witness is not the statement.
    Witness = 17,
    // The extractor's two commitments differ.
    OtherCommitment = 18,
    // Its two challenges are equal.
    SameChallenge = 19,
    // One of its two rounds is rejected.
    Rejected = 20,
    // The session's state does not allow the call, or what it holds does not fit the sheet.
    Session = 21,
    // The lent buffer is shorter than the result.
    Buffer = 22,
    // The pattern file has a wrong mark, version, count, size or length.
    PatternFile = 23,
    // A pattern has a digit above its number of values, or a value that no digit names.
    Digit = 24,
    // The level is not one byte from 1 to 64.
    Level = 25,
    // Two sheets have different challenge counts.
    OtherCount = 26,
    // A team has fewer than 2 or more than 8 players.
    Team = 27,
    // The players' images do not multiply to the statement.
    Image = 28,
    // A plan has no or too many generators, or another number of coefficients or statement values.
    Plan = 29,
    // A coefficient is as large as the order or larger.
    Coefficient = 30,
    // The sheet is too large for the game.
    Game = 31,
    // The commitment that the session holds was answered before.
    Answered = 32,
    // The list of answered commitments is full.
    FullList = 33,
    // A saved state's name is outside 0 to 7, or no state was saved under it.
    Name = 34,
    // A ledger's line is of no known kind.
    LineKind = 35,
    // A ledger's line names a line that is not above it.
    LineAbove = 36,
    // A ledger has more than 64 lines.
    Lines = 37,
}

impl Refusal {
    // The number of a refusal.
    pub fn number(self) -> u32
        ensures { result ≡ number self }
    {
        self as u32
    }
}
