// The calls load, evaluate, example, tip, export, join and opposite as definitions, in the order of the documents: no code. The functions of `dddmp`
// promise to meet them; `demands` has what is said about them.

#![tactic(auto)]
