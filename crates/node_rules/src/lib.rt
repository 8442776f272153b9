// The rules of sizes and nodes: how long the lists are, and whether each node lies over lower nodes at deeper levels.
#![tactic(auto)]

ghost use Rattle.std.specs.Prelude.{◌≡◌, ◌≤◌, length};
ghost use Rattle.store.specs.Held.{held};
ghost use Rattle.codes.specs.Limits.{limits};
ghost use Rattle.store.specs.Rules.{Sizes, depth, Fits};
ghost use Rattle.store.specs.Keeps.{Decides};
ghost use Rattle.node_rules.specs.Check.{ChildFits, AllFit};

use codes::limits;
use edges::{Edge, Index};
use store::StoreRef;

// A chain for each of so many remainders.
pub const BUCKETS: usize = 256;

// Are the lists as long as they must be, and both counts within their limits?
pub fn sizes_kept(store: &StoreRef) -> bool
    ensures { Decides result (Sizes limits (held store.now)) }
{
    let slots = store.level.len();
    let count = store.count as usize;
    store.then.len() == slots
        && store.els.len() == slots
        && store.next.len() == slots
        && store.heads.len() == BUCKETS
        && 1 <= count
        && count <= slots
        && count <= limits::NODE_LIMIT
        && store.levels as usize <= limits::VAR_LIMIT
}

// How deep a node lies: node 1 is yes, deeper than every level.
fn depth(store: &StoreRef, n: Index) -> u16
    requires { (1 ≤ n) × (n ≤ length store.now.level.now) }
    ensures { result ≡ depth (held store.now) n }
{
    if n == 1 {
        return store.levels;
    }
    store.level[(n - 1) as usize]
}

// May node n at level l have this child?
pub fn child_fits(store: &StoreRef, n: Index, l: u16, e: Edge) -> bool
    requires { n ≤ length store.now.level.now }
    ensures { Decides result (ChildFits (held store.now) n l e) }
{
    let m = edges::magnitude(e);
    1 <= m && m < n && l < depth(store, m)
}

// May a node have this number, level, then and else?
#[tactic(auto, using(crate::proofs::Fit::fits_last))]
pub fn node_fits(store: &StoreRef, n: Index, l: u16, t: Edge, e: Edge) -> bool
    requires { n ≤ length store.now.level.now }
    ensures { Decides result (Fits (held store.now) n l t e) }
{
    l < store.levels
        && !edges::is_minus(t)
        && !edges::same(t, e)
        && child_fits(store, n, l, t)
        && child_fits(store, n, l, e)
}

// Does every node fit?
pub fn nodes_fit(store: &StoreRef) -> bool
    requires { (store.now.count ≤ length store.now.level.now)
        × ((store.now.count ≤ length store.now.then.now) × (store.now.count ≤ length store.now.els.now)) }
    ensures { Decides result (AllFit (held store.now)) }
{
    for n in 2..=store.count {
        let i = (n - 1) as usize;
        if !node_fits(store, n, store.level[i], store.then[i], store.els[i]) {
            return false;
        }
    }
    true
}
