// The public calls for C, as a library: `firmware_c` exports them under these names, with the same clauses, and `include/zonetweed.h` declares and
// explains them. The lists of a store are parameters one by one, as C lends them.
#![tactic(auto)]

ghost use Rattle.codes.specs.Lent.{borrowed, seen};
ghost use Rattle.firmware.specs.Promises.{
  ZtLoadPromise,
  ZtEvaluatePromise,
  ZtExamplePromise,
  ZtTipPromise,
  ZtExportPromise,
  ZtJoinPromise,
  ZtNotPromise,
  ZtWidenPromise,
};
ghost use Rattle.joined.specs.declared.Op.TheVariants as op;

use c_answers::{
    EvaluateAnswer, ExampleAnswer, ExportAnswer, JoinAnswer, LoadAnswer, TipAnswer, WidenAnswer,
};
use edges::{Edge, Index};
use joined::Op;
use old_stores::{OldEdge, OldIndex, OldStoreRef};
use store::{StoreMut, StoreRef};

// Loads a file into the store.
pub fn zt2_load(
    file: &[u8],
    list: &[u16],
    levels: u16,
    count: &mut Index,
    level: &mut [u16],
    then: &mut [Edge],
    els: &mut [Edge],
    next: &mut [Index],
    heads: &mut [Index],
    ids: &mut [u32],
    order: &mut [u32],
    permids: &mut [u32],
    auxids: &mut [u32],
    names: &mut [u32],
    lens: &mut [u32],
    roots: &mut [Edge],
    rootnames: &mut [u32],
    rootlens: &mut [u32],
    edges: &mut [Edge],
    seats: &mut [u16],
    work: &mut [Index],
) -> LoadAnswer
    ensures { ZtLoadPromise (seen file) (seen list) levels (borrowed count) (borrowed level) (borrowed then) (borrowed els) (borrowed next)
        (borrowed heads) (borrowed ids) (borrowed order) (borrowed permids) (borrowed auxids) (borrowed names) (borrowed lens) (borrowed roots)
        (borrowed rootnames) (borrowed rootlens)
        (borrowed edges) (borrowed seats) (borrowed work) result }
{
    let mut store = StoreMut {
        levels,
        count: *count,
        level,
        then,
        els,
        next,
        heads,
    };
    let answer = dddmp::load(
        file, list, &mut store, ids, order, permids, auxids, names, lens, roots, rootnames,
        rootlens, edges, seats, work,
    );
    *count = store.count;
    LoadAnswer::from(answer)
}

// What an edge of the store answers at a setting.
pub fn zt2_evaluate(
    levels: u16,
    count: Index,
    level: &[u16],
    then: &[Edge],
    els: &[Edge],
    next: &[Index],
    heads: &[Index],
    root: Edge,
    setting: &[u8],
    work: &mut [Index],
) -> EvaluateAnswer
    ensures { ZtEvaluatePromise levels count (seen level) (seen then) (seen els) (seen next) (seen heads) root (seen setting) (borrowed work) result }
{
    let store = StoreRef {
        levels,
        count,
        level,
        then,
        els,
        next,
        heads,
    };
    EvaluateAnswer::from(dddmp::evaluate(&store, root, setting, work))
}

// The first setting at which an edge of the store answers as wanted.
pub fn zt2_example(
    levels: u16,
    count: Index,
    level: &[u16],
    then: &[Edge],
    els: &[Edge],
    next: &[Index],
    heads: &[Index],
    root: Edge,
    wanted: u8,
    setting: &mut [u8],
    work: &mut [Index],
) -> ExampleAnswer
    ensures { ZtExamplePromise levels count (seen level) (seen then) (seen els) (seen next) (seen heads) root wanted (borrowed setting) (borrowed work) result }
{
    let store = StoreRef {
        levels,
        count,
        level,
        then,
        els,
        next,
        heads,
    };
    let wanted = c_answers::wanted_of(wanted);
    ExampleAnswer::from(dddmp::example(&store, root, wanted, setting, work))
}

// The lowest level whose flip alone turns an edge's answer at a setting over.
pub fn zt2_tip(
    levels: u16,
    count: Index,
    level: &[u16],
    then: &[Edge],
    els: &[Edge],
    next: &[Index],
    heads: &[Index],
    root: Edge,
    setting: &[u8],
    work: &mut [Index],
) -> TipAnswer
    ensures { ZtTipPromise levels count (seen level) (seen then) (seen els) (seen next) (seen heads) root (seen setting) (borrowed work) result }
{
    let store = StoreRef {
        levels,
        count,
        level,
        then,
        els,
        next,
        heads,
    };
    TipAnswer::from(dddmp::tip(&store, root, setting, work))
}

// Exports the diagrams of roots of the store.
pub fn zt2_export(
    version: u8,
    text: u8,
    ddstart: u32,
    ddlen: u32,
    levels: u16,
    count: Index,
    level: &[u16],
    then: &[Edge],
    els: &[Edge],
    next: &[Index],
    heads: &[Index],
    roots: &[Edge],
    order: &[u16],
    bytes: &[u8],
    starts: &[u32],
    lens: &[u32],
    rootstarts: &[u32],
    rootlens: &[u32],
    slots: &mut [Index],
    numbers: &mut [Index],
    out: &mut [u8],
    work: &mut [Index],
) -> ExportAnswer
    ensures { ZtExportPromise version text ddstart ddlen levels count (seen level) (seen then) (seen els) (seen next) (seen heads) (seen roots)
        (seen order) (seen bytes) (seen starts) (seen lens) (seen rootstarts) (seen rootlens)
        (borrowed slots) (borrowed numbers) (borrowed out) (borrowed work) result }
{
    let store = StoreRef {
        levels,
        count,
        level,
        then,
        els,
        next,
        heads,
    };
    let settings = c_answers::settings_of(version, text, ddstart, ddlen);
    ExportAnswer::from(dddmp::export(
        settings, &store, roots, order, bytes, starts, lens, rootstarts, rootlens, slots, numbers,
        out, work,
    ))
}

// The root of an operation on two roots of the store.
fn join(
    op: Op,
    levels: u16,
    count: &mut Index,
    level: &mut [u16],
    then: &mut [Edge],
    els: &mut [Edge],
    next: &mut [Index],
    heads: &mut [Index],
    left: Edge,
    right: Edge,
    cache: &mut [Edge],
    work: &mut [Index],
) -> JoinAnswer
    ensures { ZtJoinPromise op levels (borrowed count) (borrowed level) (borrowed then) (borrowed els) (borrowed next) (borrowed heads) left right
        (borrowed cache) (borrowed work) result }
{
    let mut store = StoreMut {
        levels,
        count: *count,
        level,
        then,
        els,
        next,
        heads,
    };
    let answer = dddmp::join(&mut store, op, left, right, cache, work);
    *count = store.count;
    JoinAnswer::from(answer)
}

// The root of the and of two roots of the store.
pub fn zt2_and(
    levels: u16,
    count: &mut Index,
    level: &mut [u16],
    then: &mut [Edge],
    els: &mut [Edge],
    next: &mut [Index],
    heads: &mut [Index],
    left: Edge,
    right: Edge,
    cache: &mut [Edge],
    work: &mut [Index],
) -> JoinAnswer
    ensures { ZtJoinPromise op.And levels (borrowed count) (borrowed level) (borrowed then) (borrowed els) (borrowed next) (borrowed heads) left right
        (borrowed cache) (borrowed work) result }
{
    join(
        Op::And,
        levels,
        count,
        level,
        then,
        els,
        next,
        heads,
        left,
        right,
        cache,
        work,
    )
}

// The root of the or of two roots of the store.
pub fn zt2_or(
    levels: u16,
    count: &mut Index,
    level: &mut [u16],
    then: &mut [Edge],
    els: &mut [Edge],
    next: &mut [Index],
    heads: &mut [Index],
    left: Edge,
    right: Edge,
    cache: &mut [Edge],
    work: &mut [Index],
) -> JoinAnswer
    ensures { ZtJoinPromise op.Or levels (borrowed count) (borrowed level) (borrowed then) (borrowed els) (borrowed next) (borrowed heads) left right
        (borrowed cache) (borrowed work) result }
{
    join(
        Op::Or,
        levels,
        count,
        level,
        then,
        els,
        next,
        heads,
        left,
        right,
        cache,
        work,
    )
}

// The root of the exclusive or of two roots of the store.
pub fn zt2_xor(
    levels: u16,
    count: &mut Index,
    level: &mut [u16],
    then: &mut [Edge],
    els: &mut [Edge],
    next: &mut [Index],
    heads: &mut [Index],
    left: Edge,
    right: Edge,
    cache: &mut [Edge],
    work: &mut [Index],
) -> JoinAnswer
    ensures { ZtJoinPromise op.Xor levels (borrowed count) (borrowed level) (borrowed then) (borrowed els) (borrowed next) (borrowed heads) left right
        (borrowed cache) (borrowed work) result }
{
    join(
        Op::Xor,
        levels,
        count,
        level,
        then,
        els,
        next,
        heads,
        left,
        right,
        cache,
        work,
    )
}

// The opposite of a root of the store.
pub fn zt2_not(
    levels: u16,
    count: Index,
    level: &[u16],
    then: &[Edge],
    els: &[Edge],
    next: &[Index],
    heads: &[Index],
    root: Edge,
    work: &mut [Index],
) -> JoinAnswer
    ensures { ZtNotPromise levels count (seen level) (seen then) (seen els) (seen next) (seen heads) root (borrowed work) result }
{
    let store = StoreRef {
        levels,
        count,
        level,
        then,
        els,
        next,
        heads,
    };
    JoinAnswer::from(dddmp::opposite(&store, root, work))
}

// Turns an old store into a new one.
pub fn zt2_widen(
    levels: u16,
    old_count: OldIndex,
    old_level: &[u16],
    old_then: &[OldEdge],
    old_els: &[OldEdge],
    old_next: &[OldIndex],
    old_heads: &[OldIndex],
    count: &mut Index,
    level: &mut [u16],
    then: &mut [Edge],
    els: &mut [Edge],
    next: &mut [Index],
    heads: &mut [Index],
    work: &mut [Index],
) -> WidenAnswer
    ensures { ZtWidenPromise levels old_count (seen old_level) (seen old_then) (seen old_els) (seen old_next) (seen old_heads)
        (borrowed count) (borrowed level) (borrowed then) (borrowed els) (borrowed next) (borrowed heads) (borrowed work) result }
{
    let old = OldStoreRef {
        levels,
        count: old_count,
        level: old_level,
        then: old_then,
        els: old_els,
        next: old_next,
        heads: old_heads,
    };
    let mut store = StoreMut {
        levels,
        count: *count,
        level,
        then,
        els,
        next,
        heads,
    };
    let answer = dddmp::widen(&old, &mut store, work);
    *count = store.count;
    WidenAnswer::from(answer)
}
