// Definitions and laws only: what the answer says by paths, and the refusal table from 10 on, of whatever `outcome` defines.
#![tactic(auto)]
