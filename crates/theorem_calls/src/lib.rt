// No code: statements and proofs about the C functions as `c_step`, `c_run` and `c_turn` define them. See specs/.
#![tactic(auto)]
