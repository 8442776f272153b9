// The demands: theorems about every list of public calls. No code. It stands above the calls, and one law for each of them says that what its
// function promises is what these theorems speak of.

#![tactic(auto)]
