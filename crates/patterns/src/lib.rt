// Pattern files and the sheet maker over them (02, card 2): definitions and their laws.
#![tactic(auto)]
