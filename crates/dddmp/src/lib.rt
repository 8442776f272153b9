// The public calls: load, evaluate, example, tip, export, join and opposite, on one store, and widen, which turns an old store into a new one. Each is
// lent `work`, of any length: where it is long enough, nodes are found by an index in it, else along their chains. No answer depends on it, and it ends
// as zeros.
#![tactic(auto)]

ghost use Rattle.codes.specs.Lent.{borrowed, seen};
ghost use Rattle.store.specs.Held.{held, held_mut, SameLists};
ghost use Rattle.old_stores.specs.Promises.{held_old};
ghost use Rattle.example_walk.specs.Promises.{ExamplePromise};
ghost use Rattle.exporter.specs.Promise.{ExportPromise};
ghost use Rattle.joins.specs.Promises.{JoinPromise, OppositePromise};
ghost use Rattle.dddmp.specs.Promises.{LoadPromise, EvaluatePromise};
ghost use Rattle.tipping.specs.Promises.{TipPromise};
ghost use Rattle.widening.specs.Promises.{WidenPromise};

use codes::refusal::{Fault, Refusal};
use edges::{Edge, Index};
use exporter::ExportSettings;
use header::DumpHeader;
use joined::Op;
use old_stores::OldStoreRef;
use store::{StoreMut, StoreRef};

// Loads a file into the store. `list` is the level list, one level of the store for each support variable. Beside the store are lent: the
// lists of the header, that is `.ids`, the support order, `.permids`, `.auxids`, the variables' names as starts and lengths, the roots, the
// roots' names as starts and lengths; and scratch for the nodes, `edges` and `seats`.
pub fn load(
    f: &[u8],
    list: &[u16],
    store: &mut StoreMut,
    ids: &mut [u32],
    order: &mut [u32],
    permids: &mut [u32],
    auxids: &mut [u32],
    names: &mut [u32],
    lens: &mut [u32],
    roots: &mut [Edge],
    rootnames: &mut [u32],
    rootlens: &mut [u32],
    edges: &mut [Edge],
    seats: &mut [u16],
    work: &mut [Index],
) -> Result<DumpHeader, Fault>
    ensures same { SameLists store.old store.new }
    ensures loaded { LoadPromise (seen f) (seen list) (held_mut store.old) (held_mut store.new) (borrowed ids) (borrowed order) (borrowed permids)
        (borrowed auxids) (borrowed names) (borrowed lens) (borrowed roots) (borrowed rootnames) (borrowed rootlens) (borrowed edges) (borrowed seats)
        (borrowed work) result }
{
    let lists = stages::lists_fault(
        ids.len(),
        order.len(),
        permids.len(),
        auxids.len(),
        names.len(),
        lens.len(),
        roots.len(),
        rootnames.len(),
        rootlens.len(),
    );
    let now = store.as_ref();
    let found = stages::store_fault(lists, &now, work);
    let before = stages::length_fault(found, f.len());
    let read = DumpHeader::load(
        f, before, ids, order, permids, auxids, names, lens, roots, rootnames, rootlens,
    );
    let room = stages::check_scratch(read, edges.len(), seats.len());
    let ready = stages::check_list(room, store.levels, list);
    let answer = last_stages::load_nodes(ready, f, list, store, roots, edges, seats, work);
    last_stages::finish(
        answer, ids, order, permids, auxids, names, lens, rootnames, rootlens,
    );
    answer
}

// What an edge of the store answers at a setting, one byte for each level.
pub fn evaluate(
    store: &StoreRef,
    root: Edge,
    setting: &[u8],
    work: &mut [Index],
) -> Result<bool, Refusal>
    ensures { EvaluatePromise (held store.now) root (seen setting) (borrowed work) result }
{
    evaluation::evaluate(store, root, setting, work)
}

// The first setting at which an edge of the store answers as wanted, level 0 compared first and no before yes: a byte for each level, zeros beyond.
pub fn example(
    store: &StoreRef,
    root: Edge,
    wanted: bool,
    setting: &mut [u8],
    work: &mut [Index],
) -> Result<(), Refusal>
    ensures { ExamplePromise (held store.now) root wanted (borrowed setting) (borrowed work) result }
{
    example_walk::example(store, root, wanted, setting, work)
}

// The lowest level whose flip alone turns an edge's answer at a setting over.
pub fn tip(store: &StoreRef, root: Edge, setting: &[u8], work: &mut [Index]) -> Result<u16, Refusal>
    ensures { TipPromise (held store.now) root (seen setting) (borrowed work) result }
{
    tipping::tip(store, root, setting, work)
}

// Exports the diagrams of roots of the store into `out`. `order` has each variable's level; `bytes` holds the names, `starts` and `lens`
// the places of the variables', `rootstarts` and `rootlens` of the roots'. `slots` and `numbers` are marks, one for each node.
pub fn export(
    settings: ExportSettings,
    store: &StoreRef,
    roots: &[Edge],
    order: &[u16],
    bytes: &[u8],
    starts: &[u32],
    lens: &[u32],
    rootstarts: &[u32],
    rootlens: &[u32],
    slots: &mut [Index],
    numbers: &mut [Index],
    out: &mut [u8],
    work: &mut [Index],
) -> Result<usize, Refusal>
    ensures { ExportPromise settings (held store.now) (seen roots) (seen order) (seen bytes) (seen starts) (seen lens) (seen rootstarts) (seen rootlens)
        (borrowed slots) (borrowed numbers) (borrowed out) (borrowed work) result }
{
    settings.export(
        store, roots, order, bytes, starts, lens, rootstarts, rootlens, slots, numbers, out, work,
    )
}

// The root of an operation on two roots of the store: their and, their or, or their exclusive or. `cache`, of any length too, remembers results
// while they are joined.
pub fn join(
    store: &mut StoreMut,
    op: Op,
    left: Edge,
    right: Edge,
    cache: &mut [Edge],
    work: &mut [Index],
) -> Result<Edge, Refusal>
    ensures same { SameLists store.old store.new }
    ensures joined { JoinPromise (held_mut store.old) (held_mut store.new) op left right (borrowed cache) (borrowed work) result }
{
    joins::join(store, op, left, right, cache, work)
}

// The opposite of a root of the store.
pub fn opposite(store: &StoreRef, root: Edge, work: &mut [Index]) -> Result<Edge, Refusal>
    ensures { OppositePromise (held store.now) root (borrowed work) result }
{
    joins::opposite(store, root, work)
}

// Turns an old store, whose edges have 16 bits, into a new one with its level count and every node, chain and root number kept. The old store is only
// read, and judged by the old rules; the new one is output.
pub fn widen(old: &OldStoreRef, new: &mut StoreMut, work: &mut [Index]) -> Result<(), Refusal>
    ensures same { SameLists new.old new.new }
    ensures turned { WidenPromise (held_old old.now) (held_mut new.old) (held_mut new.new) (borrowed work) result }
{
    widening::widen(old, new, work)
}
