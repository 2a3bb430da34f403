// No code: two ends of a DLC link and the line between them, and demand 3. See specs/ and proofs/.
#![tactic(auto)]
