// Laws of lists: places by index, members, and all choices of n values.
#![tactic(auto)]
