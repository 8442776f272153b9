// The turn of an old store into a new one. The old store is only read: its nodes are copied, and the copy is judged. What the copy doesn't have, the
// old lists' lengths and unused slots, is judged before.
#![tactic(auto)]

ghost use Rattle.std.specs.Prelude.{◌≡◌, OnOk, length};
ghost use Rattle.codes.specs.Lent.{borrowed};
ghost use Rattle.codes.specs.Refusals.{fault_of};
ghost use Rattle.store.specs.Held.{held, held_mut, SameLists};
ghost use Rattle.old_stores.specs.Promises.{held_old};
ghost use Rattle.widened.specs.Widen.{lengths_of, widen_fault, widened, zeroed};
ghost use Rattle.widening.specs.Course.{copy_fault};
ghost use Rattle.widening.specs.Promises.{WidenPromise};

use codes::refusal::Refusal;
use edges::Index;
use node_rules::BUCKETS;
use old_stores::OldStoreRef;
use store::{StoreMut, StoreRef};

// The copy judged, where nothing was found before: 3 where it breaks the rules.
fn copy_fault(copy: &StoreRef, work: &mut [Index]) -> Result<(), Refusal>
    ensures { fault_of result ≡ copy_fault 0 (held copy.now) }
{
    if rules::keeps_rules(copy, copy.count, work) {
        Ok(())
    } else {
        Err(Refusal::BrokenStore)
    }
}

// The turn as far as it goes: where it is refused, the new lists hold what was copied until then.
fn turn(old: &OldStoreRef, new: &mut StoreMut, work: &mut [Index]) -> Result<(), Refusal>
    ensures fault { fault_of result ≡ widen_fault (lengths_of (held_mut new.old)) (held_old old.now) }
    ensures store { OnOk result (held_mut new.new ≡ widened (length new.old.level.now) (held_old old.now)) }
    ensures lengths { lengths_of (held_mut new.new) ≡ lengths_of (held_mut new.old) }
    ensures same { SameLists new.old new.new }
{
    let lent = new.as_ref();
    old_stores::parts_fault(old, &lent)?;
    old_stores::copy_store(usize::from(old.count), BUCKETS, old, new);
    new.levels = old.levels;
    let mut copy = new.as_ref();
    copy.count = Index::from(old.count);
    copy_fault(&copy, work)?;
    new.count = Index::from(old.count);
    Ok(())
}

// Zeros in the new store, but for its level count.
fn clear(new: &mut StoreMut)
    ensures zeros { held_mut new.new ≡ zeroed (lengths_of (held_mut new.old)) new.old.levels }
    ensures same { SameLists new.old new.new }
{
    new.count = 0;
    new.level.fill(0);
    new.then.fill(0);
    new.els.fill(0);
    new.next.fill(0);
    new.heads.fill(0);
}

// Turns an old store into a new one, with its level count and every node, chain and root number kept; unused slots are zeros. The new store is output:
// what it held isn't looked at, counts neither. `work` is for the check of the store: of any length, and zeros afterwards.
pub fn widen(old: &OldStoreRef, new: &mut StoreMut, work: &mut [Index]) -> Result<(), Refusal>
    ensures promise { WidenPromise (held_old old.now) (held_mut new.old) (held_mut new.new) (borrowed work) result }
    ensures same { SameLists new.old new.new }
{
    let turned = turn(old, new, work);
    let refused = turned.is_err();
    if refused {
        new.levels = old.levels;
        clear(new);
    }
    work.fill(0);
    turned
}
