// How a join goes, as definitions and laws: the pairs of edges that wait for the results of their sides, and what is left to do. No code: `joining`
// goes this way.
#![tactic(auto)]

use edges::Edge;
use joined::Pair;

// A pair of edges that waits while its sides are joined: its level; the result of its then sides, 0 where they are joined first; its else sides; and
// the line of the cache where its result belongs.
// Stays: an `Option` for the result makes a pair four bytes longer, and 4,096 of them lie on the stack, of which a join takes too much already.
#[derive(Clone, Copy)]
pub struct Waiting {
    pub left: Edge,
    pub right: Edge,
    pub level: u16,
    pub then: Edge,
    pub els: Pair,
    pub line: u32,
}
