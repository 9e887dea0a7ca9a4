// The starred cases of document 01 and its sample as one table, in specs/, and one proof over it, in proofs/: no code.
#![tactic(auto)]
