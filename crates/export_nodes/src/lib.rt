// The node lines of an export, in their order.
#![tactic(auto)]

ghost use Rattle.std.specs.Prelude.{◌≡◌, ◌≤◌, [], nat_abs};
ghost use Rattle.codes.specs.Limits.{node_limit};
ghost use Rattle.store.specs.Store.{slots};
ghost use Rattle.codes.specs.Lent.{borrowed};
ghost use Rattle.writers.specs.Written.{FitsOut, Written};
ghost use Rattle.node_writers.specs.Encoded.{node_bytes};
ghost use Rattle.export_nodes.specs.Tables.{slots_of, line_number_of, Numbered, lines_by, seat_by, inner_by, node_line_by, Seated, Inner, Lined};

use edges::{Edge, Index};
use store::StoreRef;

// An edge to a node, as an edge to that node's line.
#[tactic(auto, unfolding(crate::specs::Tables::line_number_of))]
pub fn number_of(numbers: &[Index], e: Edge) -> Edge
    requires { Numbered numbers.now (nat_abs e) }
    ensures { result ≡ line_number_of numbers.now e }
{
    let n = numbers[edges::magnitude(e) as usize - 1] as Edge;
    if edges::is_minus(e) {
        edges::negate(n)
    } else {
        n
    }
}

// The seat of an edge's node in the support: that of its level, and 0 of the terminal.
fn seat_of(level: &[u16], seats: &[u16], e: Edge) -> u16
    requires { Seated level.now seats.now (nat_abs e) }
    ensures { result ≡ seat_by (slots level.now [] []) seats.now (nat_abs e) }
{
    let n = edges::magnitude(e);
    if n == 1 {
        return 0;
    }
    seats[level[n as usize - 1] as usize]
}

// Writes an inner node as line n.
#[tactic(auto, unfolding(crate::specs::Tables::inner_by))]
fn put_inner(
    ascii: bool,
    store: &StoreRef,
    numbers: &[Index],
    seats: &[u16],
    out: &mut [u8],
    at: usize,
    n: Index,
    node: Index,
) -> usize
    requires le_node { (2 ≤ node) × (n ≤ node_limit) × Inner (slots_of store.now) numbers.now seats.now n node }
    requires fits_out { FitsOut out.old at (inner_by ascii (slots_of store.now) numbers.now seats.now n node) }
    ensures { Written (borrowed out) at (inner_by ascii (slots_of store.now) numbers.now seats.now n node) result }
{
    let StoreRef {
        level,
        then,
        els,
        ..
    } = *store;
    let i = node as usize - 1;
    let t = then[i];
    let e = els[i];
    let p = seats[level[i] as usize] - 1;
    let then_line = number_of(numbers, t);
    let else_line = number_of(numbers, e);
    if ascii {
        return node_writers::text::put_inner(out, at, n, p, then_line, else_line);
    }
    let seat = node_writers::binary::smaller(seat_of(level, seats, t), seat_of(level, seats, e));
    node_writers::binary::put_inner(out, at, n, p, then_line, else_line, seat)
}

// Writes a node as line n.
#[tactic(auto, unfolding(crate::specs::Tables::node_line_by, node_writers::specs::Encoded::bin_bytes))]
fn put_node(
    ascii: bool,
    store: &StoreRef,
    numbers: &[Index],
    seats: &[u16],
    out: &mut [u8],
    at: usize,
    n: Index,
    node: Index,
) -> usize
    requires le_node { (1 ≤ node) × (n ≤ node_limit) × (2 ≤ node → Inner (slots_of store.now) numbers.now seats.now n node) }
    requires fits_out { FitsOut out.old at (node_line_by ascii (slots_of store.now) numbers.now seats.now n node) }
    ensures { Written (borrowed out) at (node_line_by ascii (slots_of store.now) numbers.now seats.now n node) result }
{
    if node != 1 {
        return put_inner(ascii, store, numbers, seats, out, at, n, node);
    }
    if ascii {
        return node_writers::text::put_terminal(out, at, n);
    }
    node_writers::binary::put_terminal(out, at)
}

// Writes the lines of nodes, in their order, by the number of each node's line and the seat of each level in the support.
pub fn write_nodes(
    ascii: bool,
    store: &StoreRef,
    nodes: &[Index],
    numbers: &[Index],
    seats: &[u16],
    out: &mut [u8],
    at: usize,
) -> usize
    requires lined { Lined (slots_of store.now) nodes.now numbers.now seats.now }
    requires fits_out { FitsOut out.old at (node_bytes ascii (lines_by (slots_of store.now) numbers.now seats.now nodes.now)) }
    ensures { Written (borrowed out) at (node_bytes ascii (lines_by (slots_of store.now) numbers.now seats.now nodes.now)) result }
{
    let mut next = at;
    for (i, node) in nodes.iter().enumerate() {
        let n = (i + 1) as Index;
        next = put_node(ascii, store, numbers, seats, out, next, n, *node);
    }
    next
}
