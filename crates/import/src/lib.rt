// The nodes of a file, read into the store: the Rust's `import`.
#![tactic(auto)]

ghost use Rattle.store.specs.Held.{held_mut, SameLists};
ghost use Rattle.import_lines.specs.Promises.{ImportAsks, ImportPromise, borrowed};

use codes::refusal::Fault;
use edges::{Edge, Index};
use import_steps::Setup;
use store::StoreMut;

// Reads the nodes of a file from a position on into the store, and puts the edges of the roots in place of their numbers. On a refusal the
// store is the one handed in, and the roots are zeros. The scratch, `edges`, `seats` and `work`, ends as zeros.
pub fn import(
    f: &[u8],
    from: usize,
    setup: Setup,
    list: &[u16],
    store: &mut StoreMut,
    edges: &mut [Edge],
    seats: &mut [u16],
    roots: &mut [Edge],
    work: &mut [Index],
) -> Result<usize, Fault>
    requires { ImportAsks setup list.now (held_mut store.old) edges.old seats.old work.old }
    ensures imported { ImportPromise f.now from setup list.now (held_mut store.old) (held_mut store.new) (borrowed edges) (borrowed seats) (borrowed roots)
        (borrowed work) result }
    ensures same { SameLists store.old store.new }
{
    let before = store.count;
    let read = import_lines::import_lines(f, from, setup, list, store, edges, seats, work);
    let answer = import_steps::with_end(f, read);
    let ok = import_steps::is_read(answer);
    let n = setup.nnodes as usize;
    import_steps::put_roots(ok, &edges[..n], roots);
    let to = import_steps::staying(ok, before, store.count);
    nodes::take_back(store, to);
    edges.fill(0);
    seats.fill(0);
    work.fill(0);
    answer
}
