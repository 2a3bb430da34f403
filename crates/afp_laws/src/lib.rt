// No code: what reading and writing AFP frames mean together. See specs/ and proofs/.
#![tactic(auto)]
