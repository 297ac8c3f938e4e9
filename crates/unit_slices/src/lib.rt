// A slice moved out and at once moved back, and laws of slices: what stands in specs/ and proofs/. No code.
#![tactic(auto)]
