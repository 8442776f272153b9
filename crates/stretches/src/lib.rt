// No two nodes alike, without a large index: two nodes that are alike lie in one chain, so each chain is judged by itself, in stretches. The
// nodes of a stretch are copied into a little store and put into a small index, in which each older node of the chain is sought. So a chain
// is gone through once for each 512 of its nodes.
#![tactic(auto)]

ghost use Rattle.std.specs.Prelude.{◌≡◌, ◌≤◌, length};
ghost use Rattle.store.specs.Held.{held};
ghost use Rattle.store.specs.Rules.{Chains};
ghost use Rattle.store.specs.Keeps.{Decides};
ghost use Rattle.unique_table.specs.Index.{AllAlone};
ghost use Rattle.stretch.specs.Chained.{stretch_entries, Chained, ChainAlone};

use edges::Index;
use store::StoreRef;
use stretch::{LittleStore, SLOTS};

// The entries of the index that a stretch takes at most: see specs/Chained of `stretch`.
const ENTRIES: usize = 1541;

// Is no node of the chain from n on like an older one? The lent store is what the stretches are copied to.
fn chain_alone(store: &StoreRef, n: Index, little: &mut LittleStore, index: &mut [Index]) -> bool
    requires { Chained (held store.now) n × (length index.old ≡ stretch_entries) }
    ensures { Decides result (ChainAlone (held store.now) n) }
{
    let mut at = n;
    while at != 0 {
        let s = little.copy_stretch(store, at);
        let nodes = little.up_to(s.last);
        let part = &mut index[..3 * s.last as usize + 2];
        if !stretch::stretch_alone(part, &nodes, store, s.rest) {
            return false;
        }
        at = s.rest;
    }
    true
}

// Are no two of the store's nodes alike? For a store whose chains hold just their buckets.
pub fn distinct(store: &StoreRef) -> bool
    requires count_in_bounds { (store.now.count ≤ length store.now.level.now)
        × ((store.now.count ≤ length store.now.then.now) × ((store.now.count ≤ length store.now.els.now) × (store.now.count ≤ length store.now.next.now))) }
    requires heads_len { length store.now.heads.now ≡ 256 }
    requires chains { Chains (held store.now) }
    ensures { Decides result (AllAlone (held store.now) store.now.count) }
{
    let mut little = LittleStore {
        level: [0; SLOTS],
        then: [0; SLOTS],
        els: [0; SLOTS],
    };
    let mut index: [Index; ENTRIES] = [0; ENTRIES];
    for n in store.heads {
        if !chain_alone(store, *n, &mut little, &mut index) {
            return false;
        }
    }
    true
}
