// Joins of two edges of a store as definitions and laws: the edge that says the and, the or or the exclusive or of what two edges say, and the
// nodes that it needs. No code: `join_steps`, `join_cache`, `joining` and `joins` meet them.
#![tactic(auto)]

use edges::Edge;

// The operations on two answers.
#[derive(Clone, Copy)]
pub enum Op {
    And,
    Or,
    Xor,
}

// Two edges that are to be joined.
#[derive(Clone, Copy)]
pub struct Pair {
    pub left: Edge,
    pub right: Edge,
}
