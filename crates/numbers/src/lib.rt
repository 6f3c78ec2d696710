// Laws of numbers: congruence, powers, bounded search, gcd, inverses, integers as exponents.
#![tactic(auto)]
