// One stretch of a chain: its nodes copied into a little store, put into a small index, and every older node of the chain sought there.
#![tactic(auto)]

ghost use Rattle.std.specs.Prelude.{◌≡◌, ◌+◌, ◌*◌, ◌≤◌, length};
ghost use Rattle.store.specs.Held.{held};
ghost use Rattle.store.specs.Keeps.{Decides};
ghost use Rattle.unique_table.specs.Index.{Indexed, AllAlone};
ghost use Rattle.stretch.specs.Chained.{stretch_slots, Chained, Copied, NoneLike};
ghost use Rattle.stretch.specs.Little.{little_store};

use edges::{Edge, Index};
use store::StoreRef;

// A stretch has up to 512 nodes: see specs/Chained.
pub const SLOTS: usize = 513;

// The slots that a stretch is copied into, from the second one on, as nodes count from 2.
#[derive(Drop)]
pub struct LittleStore {
    pub level: [u16; SLOTS],
    pub then: [Edge; SLOTS],
    pub els: [Edge; SLOTS],
}

// The number of the little store's last node, and the node of the chain after it, or 0.
#[derive(Clone, Copy)]
pub struct Stretch {
    pub last: Index,
    pub rest: Index,
}

impl LittleStore {
    // Its nodes, up to the last one, as a store.
    pub fn up_to(&self, last: Index) -> StoreRef<'_>
        ensures reads { held result ≡ little_store self.now last }
        ensures slots { (length result.level.now ≡ stretch_slots)
            × ((length result.then.now ≡ stretch_slots) × (length result.els.now ≡ stretch_slots)) }
    {
        StoreRef {
            levels: 0,
            count: last,
            level: &self.level,
            then: &self.then,
            els: &self.els,
            next: &[],
            heads: &[],
        }
    }

    // Copies the nodes of a chain from n on, as many as there are slots.
    pub fn copy_stretch(&mut self, store: &StoreRef, n: Index) -> Stretch
        requires { Chained (held store.now) n × (1 ≤ n) }
        ensures le_last { (2 ≤ result.last) × (result.last ≤ stretch_slots) }
        ensures copied { Copied (held store.now) n (little_store self.new result.last) result.last result.rest }
    {
        let mut slot: usize = 1;
        let mut at = n;
        while at != 0 && slot < SLOTS {
            let i = (at - 1) as usize;
            self.level[slot] = store.level[i];
            self.then[slot] = store.then[i];
            self.els[slot] = store.els[i];
            at = store.next[i];
            slot += 1;
        }
        Stretch {
            last: slot as Index,
            rest: at,
        }
    }
}

// Is no node of the chain from n on like one of the nodes that the index knows?
fn none_like(index: &[Index], width: usize, nodes: &StoreRef, store: &StoreRef, n: Index) -> bool
    requires indexed { Indexed width (held nodes.now) nodes.now.count index.now }
    requires count_in_bounds { (nodes.now.count ≤ length nodes.now.level.now)
        × ((nodes.now.count ≤ length nodes.now.then.now) × (nodes.now.count ≤ length nodes.now.els.now)) }
    requires chained { Chained (held store.now) n }
    ensures { Decides result (NoneLike (held store.now) n (held nodes.now) nodes.now.count) }
{
    let mut at = n;
    while at != 0 {
        let i = (at - 1) as usize;
        let l = store.level[i];
        let t = store.then[i];
        let e = store.els[i];
        let x = unique_table::seek(index, width, nodes.count, nodes, l, t, e);
        if index[x] != 0 {
            return false;
        }
        at = store.next[i];
    }
    true
}

// Is no node of a stretch like another one of it, and no older node, from `rest` on, like one of it? `nodes` is the stretch, of which a single
// node is not judged. `index` has just the entries that it needs, so that no more are cleared.
pub fn stretch_alone(index: &mut [Index], nodes: &StoreRef, store: &StoreRef, rest: Index) -> bool
    requires le_last { (2 ≤ nodes.now.count) × (nodes.now.count ≤ stretch_slots) × (length index.old ≡ 3 * nodes.now.count + 2) }
    requires count_in_bounds { (nodes.now.count ≤ length nodes.now.level.now)
        × ((nodes.now.count ≤ length nodes.now.then.now) × (nodes.now.count ≤ length nodes.now.els.now)) }
    requires chained { Chained (held store.now) rest }
    ensures { Decides result (AllAlone (held nodes.now) nodes.now.count × NoneLike (held store.now) rest (held nodes.now) nodes.now.count) }
{
    if nodes.count == 2 && rest == 0 {
        return true;
    }
    let width = nodes.count as usize;
    index.fill(0);
    unique_table::distinct(index, width, nodes) && none_like(index, width, nodes, store, rest)
}
