// Definitions and laws only: `check_points` as a run, and what its answer says.
#![tactic(auto)]
