// A node with a positive then, found or put into the next slot.
#![tactic(auto)]

ghost use Rattle.std.specs.Prelude.{◌≡◌, ◌≤◌, ◌<◌, length};
ghost use Rattle.codes.specs.Limits.{limits};
ghost use Rattle.store.specs.Held.{held, held_mut, SameLists};
ghost use Rattle.store.specs.Rules.{Rules};
ghost use Rattle.insertion.specs.Known.{KnownNodes, entered};
ghost use Rattle.insertion.specs.Promises.{LookUpPromise, InsertPromise};

use edges::{Edge, Index};
use store::{StoreMut, StoreRef};

// The node with this level, then and else, or the entry of the index where it belongs: by the index, or along its chain where there is none.
fn look_up(
    store: &StoreRef,
    index: &[Index],
    width: usize,
    l: u16,
    t: Edge,
    e: Edge,
) -> Result<Index, usize>
    requires rules { Rules limits (held store.now) }
    requires known_nodes { KnownNodes width (held store.now) index.now }
    ensures { LookUpPromise (held store.now) index.now width l t e result }
{
    if width == 0 {
        return chains::find(store, l, t, e).ok_or(0);
    }
    let at = unique_table::seek(index, width, store.count, store, l, t, e);
    let n = index[at];
    if n == 0 { Err(at) } else { Ok(n) }
}

// A new node in the index, where there is one.
fn enter(index: &mut [Index], width: usize, at: usize, n: Index)
    requires { 1 ≤ width → at < length index.old }
    ensures { index.new ≡ entered width index.old at n }
{
    if width != 0 {
        index[at] = n;
    }
}

// The edge to a node with a positive then: found, or the next number; none where no slot is left. The index knows every node, and goes on doing so.
pub fn insert(
    store: &mut StoreMut,
    index: &mut [Index],
    width: usize,
    l: u16,
    t: Edge,
    e: Edge,
) -> Option<Edge>
    requires rules { Rules limits (held_mut store.old) }
    requires known_nodes { KnownNodes width (held_mut store.old) index.old }
    ensures made { InsertPromise (held_mut store.old) (held_mut store.new) index.new width l t e result }
    ensures same { SameLists store.old store.new }
{
    let now = store.as_ref();
    let at = match look_up(&now, index, width, l, t, e) {
        Ok(n) => return Some(slots::edge_to(n)),
        Err(at) => at,
    };
    if !slots::has_room(&now) {
        return None;
    }
    slots::put_node(store, l, t, e);
    enter(index, width, at, store.count);
    Some(slots::edge_to(store.count))
}
