// The loop over the node lines of a file: each is read and made into the store.
#![tactic(auto)]

ghost use Rattle.std.specs.Prelude.{◌≡◌, ◌+◌, ◌^◌, ◌<◌, ◌≤◌, length};
ghost use Rattle.codes.specs.Limits.{node_limit};
ghost use Rattle.edges.specs.Width.{position_limit};
ghost use Rattle.store.specs.Held.{held_mut, SameLists};
ghost use Rattle.node_lines.specs.Kinds.{line_said};
ghost use Rattle.node_lines.specs.Line.{seat_of_line};
ghost use Rattle.imported.specs.Import.{line_by};
ghost use Rattle.import_lines.specs.Promises.{LineRead, AddAsks, AddPromise, LinesAsks, LinesPromise, ImportAsks};

use codes::refusal::{Fault, Refusal};
use edges::{Edge, Index};
use import_steps::Setup;
use node_lines::NodeLine;
use store::StoreMut;

// The edge of a line that is made into the store, by the edges of the lines before it; none where it needs a node and no slot is left.
fn add_line(
    store: &mut StoreMut,
    index: &mut [Index],
    width: usize,
    list: &[u16],
    edges: &[Edge],
    line: NodeLine,
) -> Option<Edge>
    requires { AddAsks (held_mut store.old) index.old width list.now edges.now (line_said line) }
    ensures added { AddPromise (held_mut store.old) (held_mut store.new) index.new width list.now edges.now (line_said line) result }
    ensures same { SameLists store.old store.new }
{
    let NodeLine::Inner(p, t, e) = line else {
        return Some(1);
    };
    let a = import_steps::edge_for(edges, t);
    let b = import_steps::edge_for(edges, e);
    nodes::make(store, index, width, list[p as usize], a, b)
}

// The seat of a line: its support position, counted from 1, and 0 of a terminal line.
fn seat_of(line: NodeLine) -> u16
    requires { seat_of_line (line_said line) < 65536 }
    ensures { result ≡ seat_of_line (line_said line) }
{
    match line {
        NodeLine::Terminal => 0,
        NodeLine::Inner(p, _, _) => p + 1,
    }
}

// The node line of either mode at a position, and the position after it; or its refusal, and the line of the file that has it.
fn line_at(
    setup: Setup,
    list: &[u16],
    levels: u16,
    f: &[u8],
    seats: &[u16],
    node: Index,
    at: usize,
) -> Result<(NodeLine, usize), Fault>
    requires { (node ≤ node_limit) × (length list.now < position_limit) × (setup.lines < 2 ^ 32) }
    ensures { LineRead setup.ascii (setup.lines + node) (line_by setup.ascii setup.extra list.now levels f.now seats.now node at) result }
{
    let line = setup.lines + node as usize;
    import_steps::line_at(setup.ascii, setup.extra, list, levels, f, seats, node, at).map_err(
        |r| r.at(import_steps::line_for(setup.ascii, line, r.number())),
    )
}

// Reads the node lines from a position on and makes each into the store. `list` is the level list; `edges` and `seats` are scratch, and hold the edge
// and the seat of each line so far; `index` finds the store's nodes.
fn read_lines(
    f: &[u8],
    from: usize,
    setup: Setup,
    list: &[u16],
    store: &mut StoreMut,
    edges: &mut [Edge],
    seats: &mut [u16],
    index: &mut [Index],
    width: usize,
) -> Result<usize, Fault>
    requires { LinesAsks setup list.now (held_mut store.old) edges.old seats.old index.old width }
    ensures read { LinesPromise f.now from setup list.now (held_mut store.old) (held_mut store.new) edges.new result }
    ensures same { SameLists store.old store.new }
{
    let levels = store.levels;
    let mut at = from;
    for n in 0..setup.nnodes {
        let i = n as usize;
        let (line, after) = line_at(setup, list, levels, f, &seats[..i], n + 1, at)?;
        edges[i] = add_line(store, index, width, list, &edges[..i], line).ok_or(Refusal::NoRoom)?;
        seats[i] = seat_of(line);
        at = after;
    }
    Ok(at)
}

// The same with the work that is lent: where it is long enough, the index of the store's nodes lies in it.
pub fn import_lines(
    f: &[u8],
    from: usize,
    setup: Setup,
    list: &[u16],
    store: &mut StoreMut,
    edges: &mut [Edge],
    seats: &mut [u16],
    work: &mut [Index],
) -> Result<usize, Fault>
    requires { ImportAsks setup list.now (held_mut store.old) edges.old seats.old work.old }
    ensures read { LinesPromise f.now from setup list.now (held_mut store.old) (held_mut store.new) edges.new result }
    ensures same { SameLists store.old store.new }
{
    let width = unique_table::width_for(slots::most_nodes(store.level.len()), work.len());
    read_lines(f, from, setup, list, store, edges, seats, work, width)
}
