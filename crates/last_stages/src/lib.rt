// The last stages of a load: the nodes and the end of the file, and zeros where the load is refused. Each takes what was found so far and
// hands a refusal on.
#![tactic(auto)]

ghost use Rattle.codes.specs.Lent.{borrowed, seen};
ghost use Rattle.std.specs.Prelude.{◌≡◌, not, eqb, length};
ghost use Rattle.store.specs.Held.{held_mut, SameLists};
ghost use Rattle.header_values.specs.Kinds.{of_var_info};
ghost use Rattle.header.specs.Kinds.{of_loaded};
ghost use Rattle.stages.specs.Stages.{Readable, Searchable};
ghost use Rattle.last_stages.specs.Promises.{LoadNodesPromise, FinishPromise};

use codes::VarInfo;
use codes::refusal::Fault;
use edges::{Edge, Index};
use header::DumpHeader;
use import_steps::Setup;
use store::StoreMut;

// Do node lines have an extra word?
fn has_extra(v: VarInfo) -> bool
    ensures { result ≡ not (eqb (of_var_info v) 4) }
{
    v != VarInfo::None
}

// The nodes and `.end`. The edges of the roots take the place of their numbers, or zeros; the scratch ends as zeros.
pub fn load_nodes(
    ready: Result<DumpHeader, Fault>,
    f: &[u8],
    list: &[u16],
    store: &mut StoreMut,
    roots: &mut [Edge],
    edges: &mut [Edge],
    seats: &mut [u16],
    work: &mut [Index],
) -> Result<DumpHeader, Fault>
    requires readable { Readable (of_loaded ready) (held_mut store.old) list.now (length edges.old) (length seats.old) }
    requires searchable { Searchable (of_loaded ready) (held_mut store.old) work.old }
    ensures same { SameLists store.old store.new }
    ensures loaded { LoadNodesPromise ready (seen f) (seen list) (held_mut store.old) (held_mut store.new) (borrowed roots) (borrowed edges)
        (borrowed seats) (borrowed work) result }
{
    match ready {
        Ok(h) => {
            let setup = Setup {
                ascii: h.ascii,
                extra: has_extra(h.varinfo),
                nnodes: h.nnodes as Index,
                lines: h.lines,
            };
            import::import(f, h.next, setup, list, store, edges, seats, roots, work)?;
            Ok(h)
        }
        Err(fault) => {
            roots.fill(0);
            edges.fill(0);
            seats.fill(0);
            work.fill(0);
            Err(fault)
        }
    }
}

// The end: zeros in the lists of a load that is refused.
#[tactic(auto, unfolding(stages::specs::Stages::cleared_if))]
pub fn finish(
    answer: Result<DumpHeader, Fault>,
    ids: &mut [u32],
    order: &mut [u32],
    permids: &mut [u32],
    auxids: &mut [u32],
    names: &mut [u32],
    lens: &mut [u32],
    rootnames: &mut [u32],
    rootlens: &mut [u32],
)
    ensures { FinishPromise answer (borrowed ids) (borrowed order) (borrowed permids) (borrowed auxids) (borrowed names) (borrowed lens)
        (borrowed rootnames) (borrowed rootlens) }
{
    if answer.is_err() {
        ids.fill(0);
        order.fill(0);
        permids.fill(0);
        auxids.fill(0);
        names.fill(0);
        lens.fill(0);
        rootnames.fill(0);
        rootlens.fill(0);
    }
}
