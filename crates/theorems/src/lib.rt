// Theorems about the definitions of `rules`: statements in specs/, laws and their proofs in proofs/. No code.

#![tactic(auto)]
