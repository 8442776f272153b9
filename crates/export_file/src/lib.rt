// The file of an export.
#![tactic(auto)]

ghost use Rattle.codes.specs.Lent.{borrowed, seen};
ghost use Rattle.store.specs.Held.{held};
ghost use Rattle.export_file.specs.Promise.{FileAsks, FilePromise};

use codes::DDDMPVersion;
use codes::limits::VAR_LIMIT;
use edges::{Edge, Index};
use read_text::Place;
use store::StoreRef;

// Writes the file of roots, order and names that nothing is refused of.
pub fn write_file(
    version: DDDMPVersion,
    ascii: bool,
    dd: Place,
    store: &StoreRef,
    roots: &[Edge],
    order: &[u16],
    vars: &[u16],
    bytes: &[u8],
    starts: &[u32],
    lens: &[u32],
    rootstarts: &[u32],
    rootlens: &[u32],
    slots: &mut [Index],
    numbers: &mut [Index],
    out: &mut [u8],
) -> usize
    requires { FileAsks dd (held store.now) roots.now order.now vars.now bytes.now starts.now lens.now
        rootstarts.now rootlens.now slots.old numbers.old out.old }
    ensures { FilePromise version ascii dd (held store.now) (seen roots) (seen order)
        (seen bytes) (seen starts) (seen lens) (seen rootstarts) (seen rootlens) (borrowed out) result }
{
    let nnodes = numbering::number_nodes(store, roots, slots, numbers);
    let nodes = &slots[..nnodes];
    let mut seats = [0u16; VAR_LIMIT];
    let nsuppvars = export_support::seat_levels(store.levels, store.level, nodes, &mut seats);
    let nodes_at = export_header::write_header(
        version, ascii, out, 0, bytes, starts, lens, rootstarts, rootlens, dd.start, dd.len,
        nnodes, nsuppvars, order, vars, &seats, roots, numbers,
    );
    let end_at = export_nodes::write_nodes(ascii, store, nodes, numbers, &seats, out, nodes_at);
    writers::text::put_bytes(out, end_at, b".end\n")
}
