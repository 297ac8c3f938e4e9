// A plain load, then a transposed store: what stands in specs/ and proofs/. No code.
#![tactic(auto)]
