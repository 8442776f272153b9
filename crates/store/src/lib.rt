// The store of diagrams: the lists that it is lent in; and its rules, what its edges say, how nodes are made and taken back, as definitions and
// laws. The code stands in the crates above: `unique_table` finds a node, `rules` tests the rules, `evaluation` answers, `nodes` makes nodes and
// takes them back.

#![tactic(auto)]

ghost use Rattle.std.specs.Prelude.{◌≡◌};
ghost use Rattle.store.specs.Held.{held, held_mut};

use edges::{Edge, Index};

// A store that is only read: the level count, the count of nodes, the four lists of its slots, and the heads of its chains. `then` and `els` are
// the edges of a node, `next` is the node after it in its chain.
#[derive(Clone, Copy)]
pub struct StoreRef<'a> {
    pub levels: u16,
    pub count: Index,
    pub level: &'a [u16],
    pub then: &'a [Edge],
    pub els: &'a [Edge],
    pub next: &'a [Index],
    pub heads: &'a [Index],
}

// A store that nodes are put into and taken out of. Its count is its own: whoever lends a count writes it back.
#[derive(Drop)]
pub struct StoreMut<'a> {
    pub levels: u16,
    pub count: Index,
    pub level: &'a mut [u16],
    pub then: &'a mut [Edge],
    pub els: &'a mut [Edge],
    pub next: &'a mut [Index],
    pub heads: &'a mut [Index],
}

impl StoreMut<'_> {
    // The store as it is now, to be read.
    pub fn as_ref(&self) -> StoreRef<'_>
        ensures { held result ≡ held_mut self.now }
    {
        StoreRef {
            levels: self.levels,
            count: self.count,
            level: self.level,
            then: self.then,
            els: self.els,
            next: self.next,
            heads: self.heads,
        }
    }
}
