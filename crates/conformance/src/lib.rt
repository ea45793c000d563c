// Requirement 2 as theorems (proofs/Theorems.antt): the calls answer what the reference answers; there is no code here.
#![tactic(auto)]
