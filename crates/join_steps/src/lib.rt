// One step of a join: the result where it needs no node, and otherwise the level of the upper of two edges and their sides there.
#![tactic(auto)]

ghost use Rattle.std.specs.Prelude.{◌≡◌, cond, ◌≤◌, length, nat_abs};
ghost use Rattle.edges.specs.Edge.{IsEdge};
ghost use Rattle.store.specs.Store.{level_at};
ghost use Rattle.store.specs.Held.{held};
ghost use Rattle.joined.specs.Join as joins;
ghost use Rattle.joined.specs.Shortcuts.{near, short_and, short_xor, short};
ghost use Rattle.join_steps.specs.Slots.{Slots, BothSides, SplitAsks, SplitPromise};

use edges::Edge;
use joined::{Op, Pair};
use store::StoreRef;

// The smaller of the levels of two edges, and their sides there, where it is yes and where it is no.
#[derive(Clone, Copy)]
pub struct Split {
    pub level: u16,
    pub then: Pair,
    pub els: Pair,
}

// The sides of one edge, where a level is yes and where it is no.
#[derive(Clone, Copy)]
pub struct Sides {
    then: Edge,
    els: Edge,
}

// Is one of two edges an edge to node 1, or have they one node? Then their join needs no node; it is asked for every pair, so it is one test.
fn is_short(a: Edge, b: Edge) -> bool
    ensures { result ≡ near a b }
{
    let m = edges::magnitude(a);
    let n = edges::magnitude(b);
    (m == n) | (m == 1) | (n == 1)
}

// An edge of a node, seen through an edge to that node: a minus turns it over.
fn through(a: Edge, x: Edge) -> Edge
    requires { IsEdge x }
    ensures { result ≡ joins.through a x }
{
    if edges::is_minus(a) {
        edges::negate(x)
    } else {
        x
    }
}

// The and of two edges where it needs no node: no, where one of them is no or they are opposites; else the one that isn't yes.
#[tactic(auto, unfolding(joined::specs::Shortcuts::short_and))]
fn short_and(a: Edge, b: Edge) -> Edge
    requires { IsEdge a × IsEdge b }
    ensures value { result ≡ short_and a b }
    ensures edge { IsEdge result }
{
    if edges::same(a, -1) | edges::same(b, -1) | edges::same(a, edges::negate(b)) {
        return -1;
    }
    if edges::same(a, 1) { b } else { a }
}

// Their exclusive or: no where they are one edge, yes where they are opposites; else one of them leads to node 1, and the other is turned over where
// that one is yes.
#[tactic(auto, unfolding(joined::specs::Shortcuts::short_xor))]
fn short_xor(a: Edge, b: Edge) -> Edge
    requires { IsEdge a × IsEdge b }
    ensures { result ≡ short_xor a b }
{
    if edges::same(a, b) {
        return -1;
    }
    let c = edges::negate(b);
    if edges::same(a, c) {
        return 1;
    }
    if edges::magnitude(a) == 1 {
        return through(a, c);
    }
    through(b, edges::negate(a))
}

// The result of a join where it needs no node. An or is the opposite of the and of the opposites.
#[tactic(auto, unfolding(joined::specs::Shortcuts::short, joined::specs::Shortcuts::short_by))]
pub fn shortcut(op: Op, a: Edge, b: Edge) -> Option<Edge>
    requires { IsEdge a × IsEdge b }
    ensures { result ≡ short op a b }
{
    if !is_short(a, b) {
        return None;
    }
    Some(match op {
        Op::And => short_and(a, b),
        Op::Or => edges::negate(short_and(edges::negate(a), edges::negate(b))),
        Op::Xor => short_xor(a, b),
    })
}

// Where the node of an edge lies, other than node 1.
fn level_of(store: &StoreRef, a: Edge) -> u16
    requires { (1 ≤ nat_abs a) × (nat_abs a ≤ length store.now.level.now) }
    ensures { result ≡ level_at (held store.now) (nat_abs a) }
{
    let i = (edges::magnitude(a) - 1) as usize;
    store.level[i]
}

// A side of an edge at a level: x where its node lies there, else the edge itself.
fn side(here: bool, x: Edge, a: Edge) -> Edge
    ensures { result ≡ cond here x a }
{
    if here { x } else { a }
}

// Both sides of an edge, whose node lies at the level or doesn't. Its slot is read in either case: which of two edges lies higher can't be foreseen,
// and taking one of two values costs less than going one of two ways.
fn sides_of(store: &StoreRef, here: bool, a: Edge) -> Sides
    requires { Slots (held store.now) a }
    ensures { BothSides (held store.now) here a result }
{
    let i = (edges::magnitude(a) - 1) as usize;
    let yes = through(a, store.then[i]);
    let no = through(a, store.els[i]);
    Sides {
        then: side(here, yes, a),
        els: side(here, no, a),
    }
}

// The level where two edges are to be joined, and their sides there.
pub fn split_pair(store: &StoreRef, a: Edge, b: Edge) -> Split
    requires { SplitAsks (held store.now) a b }
    ensures { SplitPromise (held store.now) a b result }
{
    let x = level_of(store, a);
    let y = level_of(store, b);
    let left = sides_of(store, x <= y, a);
    let right = sides_of(store, y <= x, b);
    Split {
        level: x.min(y),
        then: Pair {
            left: left.then,
            right: right.then,
        },
        els: Pair {
            left: left.els,
            right: right.els,
        },
    }
}
