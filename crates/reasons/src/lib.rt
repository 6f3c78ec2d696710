// The reason why a sheet, a round file or its round 0 is turned down (02, card 1): definitions and their laws.
#![tactic(auto)]

// Where the first value that breaks a rule stands: its offset in the file that holds it, or the length found of a file whose
// length breaks the rule.
#[derive(Clone, Copy)]
pub enum Spot {
    At(usize),
    Length(usize),
}
