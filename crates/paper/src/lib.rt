// No code: the cases that document 01 marks [P], one table (specs/Table) proved by one statement (proofs/Cases).
#![tactic(auto)]
