// No code: what reading a line in chunks means, for any reader that goes octet by octet. See specs/ and proofs/.
#![tactic(auto)]
