// Definitions and laws only: what the call answers, and what it leaves in each lent buffer.
#![tactic(auto)]
