// The crate semver-parser 0.10.3, which 01 names as the reference, is transcribed into definitions (specs/), and 01's answers are proved to be its
// own (proofs/); there is no code here.

#![tactic(auto)]
