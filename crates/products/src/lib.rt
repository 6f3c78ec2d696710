// A prover that is split over a team (02, card 6), and rounds that multiply (02, card 11): definitions and their laws.
#![tactic(auto)]
