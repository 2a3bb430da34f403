// No code: what the line sheet counts of a whole capture (specs/Counts), and laws of it.
#![tactic(auto)]
