// Joining two edges of a store: down their levels, then sides first, and up again, making the nodes on the way. Pairs of edges wait in a list while
// their sides are joined, one at each level at most, so that a join takes the same stack whatever the store is.
#![tactic(auto)]

ghost use Rattle.std.specs.Prelude.{◌≡◌};
ghost use Rattle.edges.specs.Edge.{IsEdge};
ghost use Rattle.store.specs.Held.{held_mut, SameLists};
ghost use Rattle.nodes.specs.Promises.{MakeAsks, MakePromise};
ghost use Rattle.join_cache.specs.Cache.{Turnable};
ghost use Rattle.joining.specs.Promises.{Known, JoiningAsks, JoiningPromise};

use edges::{Edge, Index};
use join_cache::Found;
use join_course::Waiting;
use joined::{Op, Pair};
use store::StoreMut;

// As many pairs as a store can have levels.
const LEVELS: usize = 4096;

// The result of a join where it needs no node or is remembered; and the line of the cache where it belongs.
fn known(cache: &[Edge], op: Op, a: Edge, b: Edge) -> Found
    requires edge { IsEdge a × IsEdge b }
    requires turnable { Turnable cache.now }
    ensures { Known cache.now op a b result.result }
{
    let short = join_steps::shortcut(op, a, b);
    if short.is_some() {
        return Found {
            result: short,
            line: 0,
        };
    }
    join_cache::find(cache, op, a, b)
}

// The edge of a pair whose sides are joined. Equal sides need no node; many pairs end so, and the call that would find it out takes longer than the
// test.
fn make_over(
    store: &mut StoreMut,
    index: &mut [Index],
    width: usize,
    pair: &Waiting,
    els: Edge,
) -> Option<Edge>
    requires { MakeAsks (held_mut store.old) index.old width pair.now.level pair.now.then els }
    ensures made { MakePromise (held_mut store.old) (held_mut store.new) index.new width pair.now.level pair.now.then els result }
    ensures same { SameLists store.old store.new }
{
    if pair.then == els {
        return Some(els);
    }
    nodes::make(store, index, width, pair.level, pair.then, els)
}

// The edge that says an operation on two edges; none where no slot is left for a node of it. `index` finds the store's nodes, and `cache` has results
// of joins. Where there is no result the pair is joined next; a result comes back to the pair that waits last.
pub fn join(
    store: &mut StoreMut,
    index: &mut [Index],
    width: usize,
    cache: &mut [Edge],
    op: Op,
    a: Edge,
    b: Edge,
) -> Option<Edge>
    requires { JoiningAsks (held_mut store.old) index.old width cache.old a b }
    ensures joined { JoiningPromise (held_mut store.old) (held_mut store.new) index.new width cache.new op a b result }
    ensures same { SameLists store.old store.new }
{
    let mut waiting: [Waiting; LEVELS] = [Waiting {
        left: 0,
        right: 0,
        level: 0,
        then: 0,
        els: Pair { left: 0, right: 0 },
        line: 0,
    }; LEVELS];
    let mut n: usize = 0;
    let mut pair = Pair { left: a, right: b };
    let mut result: Option<Edge> = None;
    loop {
        match result {
            None => {
                let found = known(cache, op, pair.left, pair.right);
                if found.result.is_none() {
                    let split = join_steps::split_pair(&store.as_ref(), pair.left, pair.right);
                    waiting[n] = Waiting {
                        left: pair.left,
                        right: pair.right,
                        level: split.level,
                        then: 0,
                        els: split.els,
                        line: found.line,
                    };
                    n += 1;
                    pair = split.then;
                }
                result = found.result;
            }
            Some(x) => {
                if n == 0 {
                    return result;
                }
                let last = waiting[n - 1];
                if last.then == 0 {
                    waiting[n - 1].then = x;
                    pair = last.els;
                    result = None;
                } else {
                    let made = make_over(store, index, width, &last, x)?;
                    join_cache::keep(cache, last.line, op, last.left, last.right, made);
                    n -= 1;
                    result = Some(made);
                }
            }
        }
    }
}
