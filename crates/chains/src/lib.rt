// The chains of a store: a node is found along the chain of its bucket, with no index.
#![tactic(auto)]

ghost use Rattle.std.specs.Prelude.{◌≡◌};
ghost use Rattle.codes.specs.Limits.{limits};
ghost use Rattle.store.specs.Held.{held};
ghost use Rattle.store.specs.Rules.{Rules};
ghost use Rattle.store.specs.Make as nodes;
ghost use Rattle.chains.specs.Found.{node_found};

use edges::{Edge, Index};
use store::StoreRef;

// The node with this level, then and else: along its chain, newest first, up to the first number that isn't above both children's, since a node's
// number is above both.
pub fn find(store: &StoreRef, l: u16, t: Edge, e: Edge) -> Option<Index>
    requires { Rules limits (held store.now) }
    ensures { result ≡ node_found (nodes.find (held store.now) l t e) }
{
    let low = edges::magnitude(t).max(edges::magnitude(e));
    let k = edges::bucket(l, t, e);
    let mut n = store.heads[k];
    while low < n {
        if unique_table::holds_at(store, l, t, e, n) {
            return Some(n);
        }
        n = store.next[(n - 1) as usize];
    }
    None
}
