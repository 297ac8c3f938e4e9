// No code: statements and proofs about the definitions of `machine` and `image`. See specs/.
#![tactic(auto)]
