// The rules of a store, tested on any contents: no list is read outside its length and no link is followed that was not tested before.
#![tactic(auto)]

ghost use Rattle.codes.specs.Lent.{borrowed};
ghost use Rattle.std.specs.Prelude.{◌≡◌, ◌≤◌, ◌<◌, length};
ghost use Rattle.edges.specs.Width.{edge_limit};
ghost use Rattle.store.specs.Held.{held};
ghost use Rattle.store.specs.Rules.{Chains, Zero, Zeros};
ghost use Rattle.store.specs.Keeps.{Decides};
ghost use Rattle.rules.specs.Promises.{AlonePromise, KeepsPromise};

use edges::Index;
use node_rules::BUCKETS;
use store::StoreRef;

// Does each chain hold just its bucket, newest first? Then each next is the newest of its bucket so far, in ascending order of the nodes, and
// each head is the newest of all.
#[tactic(auto, using(crate::proofs::Pass::bucket_small))]
pub fn chains_hold(store: &StoreRef) -> bool
    requires le_count { 1 ≤ store.now.count }
    requires count_in_bounds { (store.now.count ≤ length store.now.level.now)
        × ((store.now.count ≤ length store.now.then.now) × ((store.now.count ≤ length store.now.els.now) × (store.now.count ≤ length store.now.next.now))) }
    requires heads_len { length store.now.heads.now ≡ 256 }
    ensures { Decides result (Chains (held store.now)) }
{
    let mut newest: [Index; BUCKETS] = [0; BUCKETS];
    for i in 1..store.count as usize {
        let b = edges::bucket(store.level[i], store.then[i], store.els[i]);
        if store.next[i] != newest[b] {
            return false;
        }
        newest[b] = i as Index + 1;
    }
    store.heads == newest.as_slice()
}

// Are no two nodes alike? By the index that `most` nodes have in the work that is lent, so that it is ready for what the call goes on with;
// where the work isn't long enough for it, by the chains.
pub fn all_alone(store: &StoreRef, most: Index, work: &mut [Index]) -> bool
    requires le_count { (1 ≤ store.now.count) × (store.now.count < edge_limit) }
    requires count_in_bounds { (store.now.count ≤ length store.now.level.now)
        × ((store.now.count ≤ length store.now.then.now) × ((store.now.count ≤ length store.now.els.now) × (store.now.count ≤ length store.now.next.now))) }
    requires heads_len { length store.now.heads.now ≡ 256 }
    requires chains { Chains (held store.now) }
    ensures { AlonePromise (held store.now) most (borrowed work) result }
{
    let width = unique_table::width_for(most, work.len());
    if width != 0 && store.count <= most {
        work.fill(0);
        return unique_table::distinct(work, width, store);
    }
    stretches::distinct(store)
}

// Is slot n zero? All four are read before any is looked at, so that many slots can be looked at in one step.
pub fn slot_zero(store: &StoreRef, n: usize) -> bool
    requires { (1 ≤ n)
        × ((n ≤ length store.now.level.now) × ((n ≤ length store.now.then.now) × ((n ≤ length store.now.els.now) × (n ≤ length store.now.next.now)))) }
    ensures { Decides result (Zero (held store.now) n) }
{
    let i = n - 1;
    let l = store.level[i];
    let t = store.then[i];
    let e = store.els[i];
    let x = store.next[i];
    (l == 0) & (t == 0) & (e == 0) & (x == 0)
}

// Are slot 1 and the unused slots zero? The loop has no early return, for the same reason: there may be many slots.
pub fn zeros_kept(store: &StoreRef) -> bool
    requires le_count { (1 ≤ store.now.count) × (store.now.count ≤ length store.now.level.now) }
    requires then_len { (length store.now.then.now ≡ length store.now.level.now)
        × ((length store.now.els.now ≡ length store.now.level.now) × (length store.now.next.now ≡ length store.now.level.now)) }
    ensures { Decides result (Zeros (held store.now)) }
{
    if !slot_zero(store, 1) {
        return false;
    }
    let mut zero = true;
    for used in store.count as usize..store.level.len() {
        zero &= slot_zero(store, used + 1);
    }
    zero
}

// Does a store keep the rules? Answers for any contents. Where it does and the work is long enough, the index of its nodes lies in it
// afterwards, with room for `most` of them.
pub fn keeps_rules(store: &StoreRef, most: Index, work: &mut [Index]) -> bool
    ensures { KeepsPromise (held store.now) most (borrowed work) result }
{
    node_rules::sizes_kept(store)
        && node_rules::nodes_fit(store)
        && chains_hold(store)
        && zeros_kept(store)
        && all_alone(store, most, work)
}
