// Which refusal a call gives, and what a Boolean test says.
#![tactic(auto)]
