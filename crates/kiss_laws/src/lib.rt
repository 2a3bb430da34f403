// No code: the theorems on reading KISS (proofs/Theorems), from those of every flagged line (the crate framing).
#![tactic(auto)]
