// Which step gets which answer: what stands in specs/ and proofs/. No code.
#![tactic(auto)]
