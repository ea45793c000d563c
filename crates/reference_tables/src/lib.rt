// The transcription of the reference is tested: answers of the crate itself and of pest, in tables (specs/) that the check computes (proofs/); there
// is no code here.

#![tactic(auto)]
