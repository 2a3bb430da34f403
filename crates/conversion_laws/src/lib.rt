// No code: a capture converted chunk after chunk is the line of its frames, and there and back gives the same frames (proofs/Theorems).
#![tactic(auto)]
