// No code: the sliding window over packets, for every window below the modulus. See specs/ and proofs/.
#![tactic(auto)]
