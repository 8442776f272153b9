// Making nodes and taking them back: equal children give that child, a minus on then moves to the else and to the result.
#![tactic(auto)]

ghost use Rattle.std.specs.Prelude.{◌≡◌, cond, neg_ℤ};
ghost use Rattle.edges.specs.Edge.{IsEdge};
ghost use Rattle.store.specs.Held.{held_mut, SameLists};
ghost use Rattle.insertion.specs.Kinds.{of_making};
ghost use Rattle.nodes.specs.Promises.{stays, MakeAsks, MakePromise, TakeBackAsks, TakeBackPromise};

use edges::{Edge, Index};
use store::StoreMut;

// The edge, or the opposite one under a minus.
fn complement(minus: bool, e: Edge) -> Edge
    requires { IsEdge e }
    ensures { result ≡ cond minus (neg_ℤ e) e }
{
    if minus { edges::negate(e) } else { e }
}

// The edge of a level, a then and an else; none where it needs a node and no slot is left. Equal children give that child; a minus on then moves to
// both the else and the result.
pub fn make(
    store: &mut StoreMut,
    index: &mut [Index],
    width: usize,
    l: u16,
    t: Edge,
    e: Edge,
) -> Option<Edge>
    requires { MakeAsks (held_mut store.old) index.old width l t e }
    ensures made { MakePromise (held_mut store.old) (held_mut store.new) index.new width l t e result }
    ensures same { SameLists store.old store.new }
{
    if edges::same(t, e) {
        return Some(t);
    }
    let minus = edges::is_minus(t);
    let a = complement(minus, t);
    let b = complement(minus, e);
    let made = insertion::insert(store, index, width, l, a, b)?;
    Some(complement(minus, made))
}

// How many nodes stay after an answer that was the last of several: all, or those that were there before.
pub fn staying(made: Option<Edge>, before: Index, count: Index) -> Index
    ensures { result ≡ stays (of_making made) before count }
{
    match made {
        Some(_) => count,
        None => before,
    }
}

// The nodes above number `to` taken back, newest first.
pub fn take_back(store: &mut StoreMut, to: Index)
    requires { TakeBackAsks (held_mut store.old) to }
    ensures back { TakeBackPromise (held_mut store.old) (held_mut store.new) to }
    ensures same { SameLists store.old store.new }
{
    while to < store.count {
        slots::drop_node(store);
    }
}
