// No code: formats of byte strings, and numbers in groups of seven bits. See specs/.
#![tactic(auto)]
