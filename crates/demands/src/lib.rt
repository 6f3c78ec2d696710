// The three demands, stated once over the definitions that the contracts of the public calls are equations with.
#![tactic(auto)]
