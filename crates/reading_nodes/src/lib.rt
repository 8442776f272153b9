// The node lines of an export, read back: no code, theorems about the definitions of both sides.

#![tactic(auto)]
