// Definitions and laws only: sets as words.
#![tactic(auto)]
