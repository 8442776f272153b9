// Exported files, read back: no code, theorems about the definitions of both sides.

#![tactic(auto)]
