// The statements, in specs/, with their proofs in proofs/: no code.
#![tactic(auto)]
