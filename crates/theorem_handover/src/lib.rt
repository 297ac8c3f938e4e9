// The hand-over of a machine by its image, over the C functions: what stands in specs/ and proofs/. No code.
#![tactic(auto)]
