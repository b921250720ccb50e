// A decoded sheet as a program: definitions and laws only.
#![tactic(auto)]
