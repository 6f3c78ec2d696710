// Laws of commutative groups: powers, n-fold products, homomorphisms, extraction and simulation.
#![tactic(auto)]
