// The stages of a load before its nodes, in document 01's order: lists, store, length, header, scratch, level list. Each has a promise of its
// own, takes what was found so far and hands a refusal on, so that a further check is a further stage. The header itself is
// `DumpHeader::load` of `header`; the nodes, the end and the zeros follow in `last_stages`.
#![tactic(auto)]

ghost use Rattle.codes.specs.Lent.{borrowed};
ghost use Rattle.std.specs.Prelude.{◌≡◌, [], ◌∷◌};
ghost use Rattle.codes.specs.Limits.{limits};
ghost use Rattle.header.specs.Header.{lists_fault, at_least, length_after};
ghost use Rattle.header.specs.Kinds.{of_loaded};
ghost use Rattle.stages.specs.Stages.{scratched, listed};
ghost use Rattle.stages.specs.Promises.{StoreFaultPromise};
ghost use Rattle.store.specs.Held.{held};

use codes::limits;
use codes::refusal::{Fault, Refusal};
use edges::Index;
use header::DumpHeader;
use store::StoreRef;

// What is found wrong stays a number in the next three, 0 for nothing: `DumpHeader::load` hands on whatever number was found before it.

// The lent lists, by their lengths: 1 where one is too short, else 0.
pub fn lists_fault(
    ids: usize,
    order: usize,
    permids: usize,
    auxids: usize,
    names: usize,
    lens: usize,
    roots: usize,
    rootnames: usize,
    rootlens: usize,
) -> u8
    ensures { result ≡ lists_fault (ids ∷ order ∷ permids ∷ auxids ∷ names ∷ lens ∷ []) (roots ∷ rootnames ∷ rootlens ∷ []) }
{
    crate::lengths_fault(
        &[ids, order, permids, auxids, names, lens],
        &[roots, rootnames, rootlens],
    )
}

// The store: what was found before, 0 for nothing; else 3 where it breaks its rules, else 0. Then the index of its nodes lies in the work, where
// that is long enough for as many as there are slots for.
pub fn store_fault(found: u8, store: &StoreRef, work: &mut [Index]) -> u8
    ensures { StoreFaultPromise found (held store.now) (borrowed work) result }
{
    if found != 0 {
        return found;
    }
    let most = slots::most_nodes(store.level.len());
    if rules::keeps_rules(store, most, work) {
        return 0;
    }
    Refusal::BrokenStore.number()
}

// Scratch, by the lengths of its two lists: 1 where one is too short for the nodes.
pub fn check_scratch(
    read: Result<DumpHeader, Fault>,
    edges: usize,
    seats: usize,
) -> Result<DumpHeader, Fault>
    ensures { of_loaded result ≡ scratched edges seats (of_loaded read) }
{
    let h = read?;
    if (edges as u64) < h.nnodes {
        return Err(Refusal::TooShort.at(0));
    }
    if (seats as u64) < h.nnodes {
        return Err(Refusal::TooShort.at(0));
    }
    Ok(h)
}

// The level list: 2 where it doesn't fit.
pub fn check_list(
    ready: Result<DumpHeader, Fault>,
    levels: u16,
    list: &[u16],
) -> Result<DumpHeader, Fault>
    ensures { of_loaded result ≡ listed levels list.now (of_loaded ready) }
{
    let h = ready?;
    if !level_list::list_fits(list, h.nsuppvars, levels) {
        return Err(Refusal::BadLevels.at(0));
    }
    Ok(h)
}

// Whether each of some lengths is enough.
fn at_least(least: usize, lengths: &[usize]) -> bool
    ensures { result ≡ at_least least lengths.now }
{
    for n in lengths {
        if *n < least {
            return false;
        }
    }
    true
}

// The lent lists, by the lengths of those of variables and of those of roots: 1 where one is too short, else 0.
pub fn lengths_fault(vars: &[usize], roots: &[usize]) -> u8
    ensures { result ≡ lists_fault vars.now roots.now }
{
    if !at_least(limits::VAR_LIMIT, vars) {
        return Refusal::TooShort.number();
    }
    if !at_least(limits::ROOT_LIMIT, roots) {
        return Refusal::TooShort.number();
    }
    0
}

// The input's length: what was found before, 0 for nothing; else 19 where it is too long, else 0.
pub fn length_fault(found: u8, len: usize) -> u8
    ensures { result ≡ length_after limits found len }
{
    if found != 0 {
        return found;
    }
    if limits::INPUT_LIMIT < len {
        return Refusal::OverLimit.number();
    }
    0
}
