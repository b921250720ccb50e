// Definitions and laws only: what the verifier's two analyses mean, over any program.
#![tactic(auto)]
