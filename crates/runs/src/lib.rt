// Every call on bytes, the sessions and the marker: definitions and their laws.
#![tactic(auto)]
