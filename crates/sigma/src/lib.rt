// The protocol on values: definitions and their laws.
#![tactic(auto)]
