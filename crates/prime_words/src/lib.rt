// The primes from 5 to 65,521, five to a word with the inverse of their product: the test of such a table, and its rule.
#![tactic(auto)]
