// The lines of a header that hold numbers, written.
#![tactic(auto)]

ghost use Rattle.std.specs.Prelude.{◌≡◌, [], ◌∷◌, map, ◌<◌, length, get_or, nat_abs};
ghost use Rattle.codes.specs.Lent.{borrowed};
ghost use Rattle.writers.specs.Decimal.{decimal, edge_text};
ghost use Rattle.writers.specs.Words.{spaced};
ghost use Rattle.writers.specs.Written.{FitsOut, Written};
ghost use Rattle.reached.specs.Meet.{is_in};
ghost use Rattle.export_nodes.specs.Tables.{line_number_of, Numbered};
ghost use Rattle.heading.specs.Lines.{keyed_text, lines_text};
ghost use Rattle.heading.specs.Heading.{ids_from, permids_of, count_lines, id_lines};
ghost use Rattle.heading.specs.Tables.{seated_levels, Seatable, Ordered, Rooted};

use edges::{Edge, Index};

// Writes a number with a space before it.
fn put_spaced(out: &mut [u8], at: usize, n: u64) -> usize
    requires { FitsOut out.old at (0x20 ∷ decimal n) }
    ensures { Written (borrowed out) at (0x20 ∷ decimal n) result }
{
    let next = writers::text::put_byte(out, at, b' ');
    writers::text::put_decimal(out, next, n)
}

// Writes a line of a key and a number.
#[tactic(auto, unfolding(writers::specs::Words::spaced))]
pub fn write_count(out: &mut [u8], at: usize, key: &[u8], n: usize) -> usize
    requires { FitsOut out.old at (keyed_text key.now (decimal n ∷ [])) }
    ensures { Written (borrowed out) at (keyed_text key.now (decimal n ∷ [])) result }
{
    let n_at = writers::text::put_bytes(out, at, key);
    let end = put_spaced(out, n_at, n as u64);
    writers::text::put_byte(out, end, b'\n')
}

// Writes `.nnodes`, `.nvars` and `.nsuppvars`.
#[tactic(auto, unfolding(heading::specs::Lines::lines_text, heading::specs::Heading::count_lines))]
pub fn write_counts(
    out: &mut [u8],
    at: usize,
    nnodes: usize,
    nvars: usize,
    nsuppvars: usize,
) -> usize
    requires { FitsOut out.old at (lines_text (count_lines nnodes nvars nsuppvars)) }
    ensures { Written (borrowed out) at (lines_text (count_lines nnodes nvars nsuppvars)) result }
{
    let nvars_at = write_count(out, at, b".nnodes", nnodes);
    let nsuppvars_at = write_count(out, nvars_at, b".nvars", nvars);
    write_count(out, nsuppvars_at, b".nsuppvars", nsuppvars)
}

// Is a variable in the support? Its level then has a seat.
pub fn in_support(order: &[u16], seats: &[u16], v: usize) -> bool
    requires { Seatable order.now seats.now × (v < length order.now) }
    ensures { result ≡ is_in (get_or order.now v 0) (seated_levels seats.now) }
{
    seats[order[v] as usize] != 0
}

// Writes the support variables.
fn put_ids(out: &mut [u8], at: usize, order: &[u16], seats: &[u16]) -> usize
    requires seatable { Seatable order.now seats.now }
    requires fits_out { FitsOut out.old at (spaced (map decimal (ids_from (seated_levels seats.now) 0 order.now))) }
    ensures { Written (borrowed out) at (spaced (map decimal (ids_from (seated_levels seats.now) 0 order.now))) result }
{
    let mut next = at;
    for v in 0..order.len() {
        if in_support(order, seats, v) {
            next = put_spaced(out, next, v as u64);
        }
    }
    next
}

// Writes their levels, in the order of the variables.
fn put_permids(out: &mut [u8], at: usize, order: &[u16], seats: &[u16]) -> usize
    requires seatable { Seatable order.now seats.now }
    requires fits_out { FitsOut out.old at (spaced (map decimal (permids_of (seated_levels seats.now) order.now))) }
    ensures { Written (borrowed out) at (spaced (map decimal (permids_of (seated_levels seats.now) order.now))) result }
{
    let mut next = at;
    for (v, level) in order.iter().enumerate() {
        if in_support(order, seats, v) {
            next = put_spaced(out, next, *level as u64);
        }
    }
    next
}

// Writes `.ids` and `.permids`. `vars` isn't read: it belongs to what `Ordered` says.
#[tactic(auto, unfolding(heading::specs::Lines::lines_text, heading::specs::Heading::id_lines))]
pub fn write_ids(out: &mut [u8], at: usize, order: &[u16], vars: &[u16], seats: &[u16]) -> usize
    requires ordered { Ordered order.now vars.now seats.now }
    requires fits_out { FitsOut out.old at (lines_text (id_lines (seated_levels seats.now) order.now)) }
    ensures { Written (borrowed out) at (lines_text (id_lines (seated_levels seats.now) order.now)) result }
{
    let ids_at = writers::text::put_bytes(out, at, b".ids");
    let permids_key = put_ids(out, ids_at, order, seats);
    let permids_at = writers::text::put_bytes(out, permids_key, b"\n.permids");
    let end = put_permids(out, permids_at, order, seats);
    writers::text::put_byte(out, end, b'\n')
}

// Writes a root, as the number of its line, with a space before it.
fn put_root(out: &mut [u8], at: usize, root: Edge, numbers: &[Index]) -> usize
    requires numbered { Numbered numbers.now (nat_abs root) }
    requires fits_out { FitsOut out.old at (0x20 ∷ edge_text (line_number_of numbers.now root)) }
    ensures { Written (borrowed out) at (0x20 ∷ edge_text (line_number_of numbers.now root)) result }
{
    let next = writers::text::put_byte(out, at, b' ');
    writers::text::put_edge(out, next, export_nodes::number_of(numbers, root))
}

// Writes the roots, as numbers of lines.
pub fn put_roots(out: &mut [u8], at: usize, roots: &[Edge], numbers: &[Index]) -> usize
    requires rooted { Rooted roots.now numbers.now }
    requires fits_out { FitsOut out.old at (spaced (map edge_text (map (line_number_of numbers.now) roots.now))) }
    ensures { Written (borrowed out) at (spaced (map edge_text (map (line_number_of numbers.now) roots.now))) result }
{
    let mut next = at;
    for root in roots {
        next = put_root(out, next, *root, numbers);
    }
    next
}
