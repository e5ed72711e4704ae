// Theorems only: what the definitions of the crates below promise. proofs/Main is the page to open first.

#![tactic(auto)]
