// The turn of an old store and the lists of calls before and after it: what is said of them, as definitions and laws.

#![tactic(auto)]
