// No code: worked runs of two ends of a DLC link, why sixteen slots are too many, and why both ends use the same edition. See specs/ and proofs/.
#![tactic(auto)]
