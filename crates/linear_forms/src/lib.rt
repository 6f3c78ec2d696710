// Sheets from linear forms (02, card 10): definitions and their laws.
#![tactic(auto)]
