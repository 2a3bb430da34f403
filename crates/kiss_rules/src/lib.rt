// No code: the rules by which KISS lines are read (specs/Rules), and worked lines (specs/Examples).
#![tactic(auto)]
