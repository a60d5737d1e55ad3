// No code: the laws of proofs/ are what this crate is for.
#![tactic(auto)]
