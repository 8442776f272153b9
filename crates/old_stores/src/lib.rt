// An old store, whose edges have 16 bits: its sizes and zeros are judged, and its lists copied into those of a new one.
#![tactic(auto)]

ghost use Rattle.std.specs.Prelude.{◌≡◌, ◌≤◌, ◌<◌, ℕ, length, drop, Some, slice_get};
ghost use Rattle.codes.specs.Refusals.{fault_of};
ghost use Rattle.store.specs.Held.{held, held_mut, SameLists};
ghost use Rattle.store.specs.Rules.{Sizes, Zero, Zeros};
ghost use Rattle.store.specs.Keeps.{Decides};
ghost use Rattle.widened.specs.OldLimits.{old_limits};
ghost use Rattle.widened.specs.Widen.{lengths, lengths_of, takes};
ghost use Rattle.old_stores.specs.Promises.{held_old, SlotThere, Judged, CopyAsks, CopyPromise};

use codes::limits;
use codes::refusal::Refusal;
use edges::{Edge, Index};
use node_rules::BUCKETS;
use store::{StoreMut, StoreRef};

// An edge of an old store, and the number of a node there.
pub type OldEdge = i16;

pub type OldIndex = u16;

// Nodes of an old store.
pub const OLD_NODE_LIMIT: usize = 32767;

// An old store, which is only read.
#[derive(Clone, Copy)]
pub struct OldStoreRef<'a> {
    pub levels: u16,
    pub count: OldIndex,
    pub level: &'a [u16],
    pub then: &'a [OldEdge],
    pub els: &'a [OldEdge],
    pub next: &'a [OldIndex],
    pub heads: &'a [OldIndex],
}

// Can lists of such lengths take a store of so many nodes?
fn lists_take(
    count: usize,
    level: usize,
    then: usize,
    els: usize,
    next: usize,
    heads: usize,
) -> bool
    ensures { result ≡ takes (lengths level then els next heads) count }
{
    then == level && els == level && next == level && count <= level && heads == BUCKETS
}

// Are the old lists as long as they must be, and both counts within the old limits?
fn sizes_kept(old: &OldStoreRef) -> bool
    ensures { Decides result (Sizes old_limits (held_old old.now)) }
{
    let count = usize::from(old.count);
    lists_take(
        count,
        old.level.len(),
        old.then.len(),
        old.els.len(),
        old.next.len(),
        old.heads.len(),
    ) && 1 <= count
        && count <= OLD_NODE_LIMIT
        && usize::from(old.levels) <= limits::VAR_LIMIT
}

// Is slot n of an old store zero? All four are read before any is looked at, so that many slots can be looked at in one step.
fn slot_zero(old: &OldStoreRef, n: usize) -> bool
    requires { SlotThere (held_old old.now) n }
    ensures { Decides result (Zero (held_old old.now) n) }
{
    let i = n - 1;
    (old.level[i] == 0) & (old.then[i] == 0) & (old.els[i] == 0) & (old.next[i] == 0)
}

// Are slot 1 and the unused slots of an old store zero?
// Stays: `rules::zeros_kept` is the same over wider edges; what both would need of a width, with its laws, is longer than either.
fn zeros_kept(old: &OldStoreRef) -> bool
    requires { Sizes old_limits (held_old old.now) }
    ensures { Decides result (Zeros (held_old old.now)) }
{
    if !slot_zero(old, 1) {
        return false;
    }
    let mut zero = true;
    for i in usize::from(old.count)..old.level.len() {
        zero &= slot_zero(old, i + 1);
    }
    zero
}

// What refuses the turn before a node is looked at: 1 where the new lists can't take the store, 3 where the old lists' lengths, a count or the unused
// slots break the old rules.
pub fn parts_fault(old: &OldStoreRef, new: &StoreRef) -> Result<(), Refusal>
    ensures { Judged (lengths_of (held new.now)) (held_old old.now) (fault_of result) }
{
    if !lists_take(
        usize::from(old.count),
        new.level.len(),
        new.then.len(),
        new.els.len(),
        new.next.len(),
        new.heads.len(),
    ) {
        return Err(Refusal::TooShort);
    }
    if !sizes_kept(old) || !zeros_kept(old) {
        return Err(Refusal::BrokenStore);
    }
    Ok(())
}

// A list over the front of another one, in the width of that one.
fn copy_front<A: Copy, B: Copy + From<A>>(from: &[A], to: &mut [B])
    requires { length from.now ≤ length to.old }
    ensures long { length to.new ≡ length to.old }
    ensures front { (k : ℕ) (a : A) (b : B) → slice_get from.now k ≡ Some a → slice_get to.new k ≡ Some b → B.from_gives a b }
    ensures rest { drop (length from.now) to.new ≡ drop (length from.now) to.old }
{
    for (i, e) in from.iter().enumerate() {
        to[i] = B::from(*e);
    }
}

// The slots of the first n nodes, and so many heads, in the new lists; zeros after them.
pub fn copy_store(n: usize, buckets: usize, old: &OldStoreRef, new: &mut StoreMut)
    requires { CopyAsks n buckets (held_old old.now) (held_mut new.old) }
    ensures copied { CopyPromise n buckets (held_old old.now) (held_mut new.old) (held_mut new.new) }
    ensures same { SameLists new.old new.new }
{
    new.level.fill(0);
    new.then.fill(0);
    new.els.fill(0);
    new.next.fill(0);
    new.heads.fill(0);
    copy_front(&old.level[..n], new.level);
    copy_front(&old.then[..n], new.then);
    copy_front(&old.els[..n], new.els);
    copy_front(&old.next[..n], new.next);
    copy_front(&old.heads[..buckets], new.heads);
}
