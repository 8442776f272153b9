// The roots of a file: their faults, and the edges that they are.
#![tactic(auto)]

ghost use Rattle.std.specs.Prelude.{◌≡◌, map};
ghost use Rattle.codes.specs.Lent.{laid};
ghost use Rattle.codes.specs.Refusals.{fault_of};
ghost use Rattle.file_roots.specs.Roots.{roots_fault, edge_of};

use codes::limits;
use codes::refusal::Refusal;
use edges::Edge;

// The refusal of the first root that has one.
pub fn roots_fault(roots: &[i64], nnodes: u64) -> Result<(), Refusal>
    ensures { fault_of result ≡ roots_fault nnodes roots.now }
{
    for r in roots {
        let m = r.unsigned_abs();
        if m == 0 {
            return Err(Refusal::ZeroRoot);
        }
        if nnodes < m {
            return Err(Refusal::RootOverNnodes);
        }
    }
    Ok(())
}

// A root as an edge. After 26 none is beyond the nodes that a file may have.
pub fn edge_of(r: i64) -> Edge
    ensures { result ≡ edge_of r }
{
    if (limits::NODE_LIMIT as u64) < r.unsigned_abs() {
        return 0;
    }
    r as Edge
}

// The roots as edges, over the front of a list.
pub fn edges_of(roots: &[i64], dst: &mut [Edge])
    ensures { dst.new ≡ laid (map edge_of roots.now) dst.old }
{
    for (i, r) in roots.iter().enumerate() {
        if i < dst.len() {
            dst[i] = edge_of(*r);
        }
    }
}
