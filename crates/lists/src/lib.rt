// Definitions and laws of lists of task numbers, in specs/ and proofs/: no code.
#![tactic(auto)]
