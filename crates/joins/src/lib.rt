// Two roots of a store joined, and the opposite of one.
#![tactic(auto)]

ghost use Rattle.codes.specs.Lent.{borrowed};
ghost use Rattle.std.specs.Prelude.{◌≡◌, length, replicate, pos};
ghost use Rattle.codes.specs.Limits.{limits};
ghost use Rattle.codes.specs.Refusals.{read_of};
ghost use Rattle.store.specs.Held.{held, held_mut, SameLists};
ghost use Rattle.joined.specs.Roots.{opposite_root};
ghost use Rattle.joins.specs.Promises.{JoinFaultPromise, SettleAsks, SettlePromise, RootsPromise, JoinPromise, OppositePromise};

use codes::refusal::Refusal;
use edges::{Edge, Index};
use joined::Op;
use store::{StoreMut, StoreRef};

// The entries of the cache that a join has of its own, where the one that it is lent is shorter.
pub const OWN_CACHE: usize = 16384;

// What refuses a join before any node is made: 3 where the store breaks its rules, 4 where a root isn't one of it. Where nothing does, the index of
// its nodes lies in the work, if that is long enough for as many as there are slots for.
fn join_fault(store: &StoreRef, a: Edge, b: Edge, work: &mut [Index]) -> Result<(), Refusal>
    ensures { JoinFaultPromise (held store.now) a b (borrowed work) result }
{
    let most = slots::most_nodes(store.level.len());
    if !rules::keeps_rules(store, most, work) {
        return Err(Refusal::BrokenStore);
    }
    if !evaluation::is_root(store.count, a) || !evaluation::is_root(store.count, b) {
        return Err(Refusal::BadRootOrSetting);
    }
    Ok(())
}

// Joins, or leaves the store as it was.
fn join_or_back(
    store: &mut StoreMut,
    work: &mut [Index],
    cache: &mut [Edge],
    op: Op,
    a: Edge,
    b: Edge,
) -> Option<Edge>
    requires settle_asks { SettleAsks (held_mut store.old) work.old a b }
    requires cache_value { cache.old ≡ replicate (length cache.old) (pos 0) }
    ensures settled { SettlePromise (held_mut store.old) (held_mut store.new) op a b result }
    ensures same { SameLists store.old store.new }
{
    let before = store.count;
    let width = unique_table::width_for(slots::most_nodes(store.level.len()), work.len());
    let made = joining::join(store, work, width, cache, op, a, b);
    let to = nodes::staying(made, before, store.count);
    nodes::take_back(store, to);
    made
}

// The same by whichever cache is longer, the one that is lent or one of its own.
fn join_by(
    store: &mut StoreMut,
    work: &mut [Index],
    cache: &mut [Edge],
    op: Op,
    a: Edge,
    b: Edge,
) -> Option<Edge>
    requires settle_asks { SettleAsks (held_mut store.old) work.old a b }
    requires cache_value { cache.old ≡ replicate (length cache.old) (pos 0) }
    ensures settled { SettlePromise (held_mut store.old) (held_mut store.new) op a b result }
    ensures same { SameLists store.old store.new }
{
    if OWN_CACHE <= cache.len() {
        return join_or_back(store, work, cache, op, a, b);
    }
    let mut own: [Edge; OWN_CACHE] = [0; OWN_CACHE];
    join_or_back(store, work, &mut own, op, a, b)
}

// The root of an operation on two roots, with a cache of zeros, which ends as zeros.
fn join_roots(
    store: &mut StoreMut,
    work: &mut [Index],
    cache: &mut [Edge],
    op: Op,
    a: Edge,
    b: Edge,
) -> Result<Edge, Refusal>
    requires { cache.old ≡ replicate (length cache.old) (pos 0) }
    ensures joined { RootsPromise (held_mut store.old) (held_mut store.new) op a b result }
    ensures cache_left { cache.new ≡ replicate (length cache.old) (pos 0) }
    ensures same { SameLists store.old store.new }
{
    join_fault(&store.as_ref(), a, b, work)?;
    let made = join_by(store, work, cache, op, a, b);
    cache.fill(0);
    made.ok_or(Refusal::NoRoom)
}

// The root of an operation on two roots. `cache` remembers results while they are joined, and `work` is for the check of the store and for
// finding its nodes: of any length both, and zeros afterwards.
pub fn join(
    store: &mut StoreMut,
    op: Op,
    a: Edge,
    b: Edge,
    cache: &mut [Edge],
    work: &mut [Index],
) -> Result<Edge, Refusal>
    ensures joined { JoinPromise (held_mut store.old) (held_mut store.new) op a b (borrowed cache) (borrowed work) result }
    ensures same { SameLists store.old store.new }
{
    cache.fill(0);
    let joined = join_roots(store, work, cache, op, a, b);
    work.fill(0);
    joined
}

// The opposite of a root. The work holds anything afterwards.
#[tactic(auto, unfolding(joined::specs::Roots::opposite_root))]
fn opposite_root(store: &StoreRef, root: Edge, work: &mut [Index]) -> Result<Edge, Refusal>
    ensures { read_of result ≡ opposite_root limits (held store.now) root }
{
    if !rules::keeps_rules(store, store.count, work) {
        return Err(Refusal::BrokenStore);
    }
    if !evaluation::is_root(store.count, root) {
        return Err(Refusal::BadRootOrSetting);
    }
    Ok(edges::negate(root))
}

// The opposite of a root. `work` is for the check of the store: of any length, and zeros afterwards.
pub fn opposite(store: &StoreRef, root: Edge, work: &mut [Index]) -> Result<Edge, Refusal>
    ensures { OppositePromise (held store.now) root (borrowed work) result }
{
    let answer = opposite_root(store, root, work);
    work.fill(0);
    answer
}
