// The slots of a store: a node put into the next one, and the newest node taken out again.
#![tactic(auto)]

ghost use Rattle.std.specs.Prelude.{◌≡◌, ◌<◌, length, pos};
ghost use Rattle.edges.specs.Edge.{IsEdge};
ghost use Rattle.store.specs.Held.{held, held_mut, SameLists};
ghost use Rattle.codes.specs.Limits.{limits};
ghost use Rattle.store.specs.Rules.{Sizes};
ghost use Rattle.store.specs.Make as nodes;
ghost use Rattle.slots.specs.Most.{most_nodes};

use codes::limits::NODE_LIMIT;
use edges::{Edge, Index};
use store::{StoreMut, StoreRef};

// The edge to a node, with no minus.
pub fn edge_to(n: Index) -> Edge
    requires { IsEdge (pos n) }
    ensures { result ≡ pos n }
{
    n as Edge
}

// Is there a slot for one node more?
pub fn has_room(store: &StoreRef) -> bool
    ensures { result ≡ nodes.room_for limits (held store.now) }
{
    let n = store.count as usize;
    n < store.level.len() && n < NODE_LIMIT
}

// How many nodes a store with so many slots can have.
pub fn most_nodes(len: usize) -> Index
    ensures { result ≡ most_nodes len }
{
    len.min(NODE_LIMIT) as Index
}

// One node more, in the next slot and at the front of its chain.
pub fn put_node(store: &mut StoreMut, l: u16, t: Edge, e: Edge)
    requires sizes { Sizes limits (held_mut store.old) }
    requires count_in_bounds { store.old.count < length store.old.level.now }
    ensures added { held_mut store.new ≡ nodes.added (held_mut store.old) l t e }
    ensures same { SameLists store.old store.new }
{
    let b = edges::bucket(l, t, e);
    let i = store.count as usize;
    store.level[i] = l;
    store.then[i] = t;
    store.els[i] = e;
    store.next[i] = store.heads[b];
    store.count += 1;
    store.heads[b] = store.count;
}

// The newest node's slot to zeros, and the head of its chain to where the chain went on.
pub fn drop_node(store: &mut StoreMut)
    requires { Sizes limits (held_mut store.old) }
    ensures dropped { held_mut store.new ≡ nodes.dropped (held_mut store.old) }
    ensures same { SameLists store.old store.new }
{
    store.count -= 1;
    let i = store.count as usize;
    let b = edges::bucket(store.level[i], store.then[i], store.els[i]);
    store.heads[b] = store.next[i];
    store.level[i] = 0;
    store.then[i] = 0;
    store.els[i] = 0;
    store.next[i] = 0;
}
