// The turn of an old store, whose edges have 16 bits, into a new one, as definitions and laws. The code stands in `widening`.

#![tactic(auto)]
