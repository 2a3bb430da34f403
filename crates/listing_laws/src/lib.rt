// No code: the text of a whole listing (specs/Listing), and that a caller of the lister gets it however the capture is cut (proofs/Theorems).
#![tactic(auto)]
