// No code: exactness of float product runs on whole numbers, theorems about the definitions of `run`. The statements stand in
// specs/, the proofs in proofs/.
#![tactic(auto)]
