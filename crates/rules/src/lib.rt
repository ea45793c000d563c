// The rules of document 01 are definitions (specs/) and theorems about them (proofs/); there is no code here.

#![tactic(auto)]
