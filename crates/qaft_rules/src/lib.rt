// No code: the rules by which QAFT lines are read (specs/Rules), and worked lines with either check (specs/Examples, specs/Longer).
#![tactic(auto)]
