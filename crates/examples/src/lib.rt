// The worked examples: 01's calculator pages, and a pair of sheets for the OR proof.
#![tactic(auto)]
