// Headers whose answers the checker computes from the definitions, and the law that the first line with a fault decides. No code.

#![tactic(auto)]
