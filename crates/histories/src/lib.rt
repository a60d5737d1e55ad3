// No code: what every history of calls keeps stands in proofs/.
#![tactic(auto)]
