// The small steps of an import: a line of either mode, the edge of a child, the line of a refusal, the end of the file, the roots.
#![tactic(auto)]

ghost use Rattle.std.specs.Prelude.{◌≡◌, cond, ◌≤◌, ◌<◌, nat_abs, length};
ghost use Rattle.codes.specs.Limits.{node_limit};
ghost use Rattle.edges.specs.Width.{position_limit};
ghost use Rattle.node_lines.specs.Kinds.{of_decoded};
ghost use Rattle.imported.specs.Build.{edge_for, AllEdges};
ghost use Rattle.imported.specs.Import.{line_by, line_for, blank_all, ends_well, with_end, is_read, roots_by, EdgesIf};
ghost use Rattle.import_steps.specs.Kinds.{of_imported};

use codes::refusal::{Fault, Refusal};
use edges::{Edge, Index};
use node_lines::NodeLine;

// What the nodes are read by: mode A or not; whether lines have an extra word; how many lines there are; how many lines the header has.
#[derive(Clone, Copy)]
pub struct Setup {
    pub ascii: bool,
    pub extra: bool,
    pub nnodes: Index,
    pub lines: usize,
}

// The node line of either mode at a position, with the position after it.
#[tactic(auto, unfolding(imported::specs::Import::line_by))]
pub fn line_at(
    ascii: bool,
    extra: bool,
    list: &[u16],
    levels: u16,
    f: &[u8],
    seats: &[u16],
    node: Index,
    at: usize,
) -> Result<(NodeLine, usize), Refusal>
    requires { (node ≤ node_limit) × (length list.now < position_limit) }
    ensures { of_decoded result ≡ line_by ascii extra list.now levels f.now seats.now node at }
{
    if ascii {
        import_ascii::line_at(f, at, extra, list, seats, node)
    } else {
        import_bin::line_at(f, at, levels, list, seats, node)
    }
}

// The edge of a root or child, by the edges of the lines.
#[tactic(auto, unfolding(imported::specs::Build::edge_for))]
pub fn edge_for(edges: &[Edge], c: Edge) -> Edge
    requires { AllEdges edges.now × (1 ≤ nat_abs c) }
    ensures { result ≡ edge_for edges.now c }
{
    let i = edges::magnitude(c) as usize - 1;
    let e = edges.get(i).copied().unwrap_or(1);
    if edges::is_minus(c) {
        edges::negate(e)
    } else {
        e
    }
}

// The line of a node line's refusal.
// Stays: `k` is a number, as a caller of this public function may have any.
pub fn line_for(ascii: bool, line: usize, k: u8) -> usize
    ensures { result ≡ line_for ascii line k }
{
    if ascii && k != Refusal::EndsEarly.number() {
        line
    } else {
        0
    }
}

// Whether there is only white space.
#[tactic(auto, unfolding(imported::specs::Import::blank_all))]
fn blank_all(rest: &[u8]) -> bool
    ensures { result ≡ blank_all rest.now }
{
    rest.iter().all(|b| codes::is_whitespace(*b))
}

// Whether the file ends with `.end` at a position, and white space.
#[tactic(auto, using(read_text::proofs::Alike::pointwise_alike), unfolding(imported::specs::Import::ends_well))]
fn ends_well(f: &[u8], at: usize) -> bool
    ensures { result ≡ ends_well f.now at }
{
    let Some(rest) = f.get(at..) else {
        return false;
    };
    let Some(after) = rest.strip_prefix(b".end") else {
        return false;
    };
    blank_all(after)
}

// The answer with the end of the file judged.
pub fn with_end(f: &[u8], read: Result<usize, Fault>) -> Result<usize, Fault>
    ensures { of_imported result ≡ with_end f.now (of_imported read) }
{
    let at = read?;
    if !ends_well(f, at) {
        return Err(Refusal::NoEnd.at(0));
    }
    Ok(at)
}

pub fn is_read(answer: Result<usize, Fault>) -> bool
    ensures { result ≡ is_read (of_imported answer) }
{
    answer.is_ok()
}

// The edges of the roots in place of their numbers, or zeros where the nodes are refused.
pub fn put_roots(ok: bool, edges: &[Edge], roots: &mut [Edge])
    requires { EdgesIf ok edges.now }
    ensures { roots.new ≡ roots_by ok edges.now roots.old }
{
    for r in roots.iter_mut() {
        if !ok {
            *r = 0;
        } else if *r != 0 {
            *r = edge_for(edges, *r);
        }
    }
}

// How many nodes stay: all, or those that were there before.
pub fn staying(ok: bool, before: Index, count: Index) -> Index
    ensures { result ≡ cond ok count before }
{
    if ok { count } else { before }
}
