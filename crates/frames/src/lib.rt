// No code: the steps of proofs/ are what this crate is for.
#![tactic(auto)]
