// No code: a capture counted in chunks is counted whole, and tallied by what it is (docs/THEOREMS.md).
#![tactic(auto)]
