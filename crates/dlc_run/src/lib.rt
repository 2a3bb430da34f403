// No code: lists of events at one end of a DLC link, and what the step table makes of them. See specs/ and proofs/.
#![tactic(auto)]
