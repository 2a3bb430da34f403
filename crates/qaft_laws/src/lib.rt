// No code: the theorems on reading QAFT (proofs/Theorems), from those of every flagged line (the crate framing).
#![tactic(auto)]
