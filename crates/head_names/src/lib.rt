// The lines of a header that hold names, written.
#![tactic(auto)]

ghost use Rattle.std.specs.Prelude.{[], ◌∷◌, ◌+◌, ◌≤◌, ◌<◌, length, get_or};
ghost use Rattle.codes.specs.Lent.{borrowed, seen};
ghost use Rattle.read_text.specs.Text.{place};
ghost use Rattle.export_names.specs.Names.{name_at, names_at};
ghost use Rattle.writers.specs.Words.{spaced};
ghost use Rattle.writers.specs.Written.{FitsOut, Written};
ghost use Rattle.heading.specs.Lines.{keyed_text, lines_text};
ghost use Rattle.heading.specs.Heading.{varname_lines};
ghost use Rattle.heading.specs.Tables.{Inside};
ghost use Rattle.head_names.specs.Promises.{SuppNamesAsks, SuppNamesPromise, OrderedNamesAsks, OrderedNamesPromise};
ghost use Rattle.head_names.specs.Promises.{NamesAsks, NameLinesPromise, RootnamesAsks, RootnamesPromise};

use codes::DDDMPVersion;

// Writes the name at a place.
pub fn put_place(out: &mut [u8], at: usize, bytes: &[u8], start: u32, len: u32) -> usize
    requires len_in_bounds { start + len ≤ length bytes.now }
    requires fits_out { FitsOut out.old at (name_at bytes.now (place start len)) }
    ensures { Written (borrowed out) at (name_at bytes.now (place start len)) result }
{
    let first = start as usize;
    let end = first + len as usize;
    writers::text::put_bytes(out, at, &bytes[first..end])
}

// Writes the name of an entry with a space before it.
fn put_name(
    out: &mut [u8],
    at: usize,
    bytes: &[u8],
    starts: &[u32],
    lens: &[u32],
    i: usize,
) -> usize
    requires inside { Inside bytes.now starts.now lens.now × (i < length lens.now) }
    requires fits_out { FitsOut out.old at (0x20 ∷ get_or (names_at bytes.now starts.now lens.now) i []) }
    ensures { Written (borrowed out) at (0x20 ∷ get_or (names_at bytes.now starts.now lens.now) i []) result }
{
    let next = writers::text::put_byte(out, at, b' ');
    put_place(out, next, bytes, starts[i], lens[i])
}

// Writes all names of a list, in its order.
fn put_names(out: &mut [u8], at: usize, bytes: &[u8], starts: &[u32], lens: &[u32]) -> usize
    requires inside { Inside bytes.now starts.now lens.now }
    requires fits_out { FitsOut out.old at (spaced (names_at bytes.now starts.now lens.now)) }
    ensures { Written (borrowed out) at (spaced (names_at bytes.now starts.now lens.now)) result }
{
    let mut next = at;
    for i in 0..lens.len() {
        next = put_name(out, next, bytes, starts, lens, i);
    }
    next
}

// Writes a line of a key and all names of a list.
fn write_list(
    out: &mut [u8],
    at: usize,
    key: &[u8],
    bytes: &[u8],
    starts: &[u32],
    lens: &[u32],
) -> usize
    requires inside { Inside bytes.now starts.now lens.now }
    requires fits_out { FitsOut out.old at (keyed_text key.now (names_at bytes.now starts.now lens.now)) }
    ensures { Written (borrowed out) at (keyed_text key.now (names_at bytes.now starts.now lens.now)) result }
{
    let names_at = writers::text::put_bytes(out, at, key);
    let end = put_names(out, names_at, bytes, starts, lens);
    writers::text::put_byte(out, end, b'\n')
}

// Writes the names of the support variables, in the order of the variables.
fn put_supp_names(
    out: &mut [u8],
    at: usize,
    bytes: &[u8],
    starts: &[u32],
    lens: &[u32],
    order: &[u16],
    seats: &[u16],
) -> usize
    requires { SuppNamesAsks out.old at bytes.now starts.now lens.now order.now seats.now }
    ensures { SuppNamesPromise (borrowed out) at (seen bytes) (seen starts) (seen lens) (seen order) (seen seats) result }
{
    let mut next = at;
    for v in 0..order.len() {
        if head_numbers::in_support(order, seats, v) {
            next = put_name(out, next, bytes, starts, lens, v);
        }
    }
    next
}

// Writes the names of all variables, in the order of the levels.
fn put_ordered_names(
    out: &mut [u8],
    at: usize,
    bytes: &[u8],
    starts: &[u32],
    lens: &[u32],
    order: &[u16],
    vars: &[u16],
) -> usize
    requires { OrderedNamesAsks out.old at bytes.now starts.now lens.now order.now vars.now }
    ensures { OrderedNamesPromise (borrowed out) at (seen bytes) (seen starts) (seen lens) (seen order) result }
{
    let mut next = at;
    for l in 0..order.len() {
        let variable = vars[l] as usize - 1;
        next = put_name(out, next, bytes, starts, lens, variable);
    }
    next
}

// Writes `.varnames`, in version 3.0.
#[tactic(auto, unfolding(heading::specs::Lines::lines_text))]
fn write_varnames(
    version: DDDMPVersion,
    out: &mut [u8],
    at: usize,
    bytes: &[u8],
    starts: &[u32],
    lens: &[u32],
) -> usize
    requires inside { Inside bytes.now starts.now lens.now }
    requires fits_out { FitsOut out.old at (lines_text (varname_lines version (names_at bytes.now starts.now lens.now))) }
    ensures { Written (borrowed out) at (lines_text (varname_lines version (names_at bytes.now starts.now lens.now))) result }
{
    match version {
        DDDMPVersion::V2_0 => at,
        DDDMPVersion::V3_0 => write_list(out, at, b".varnames", bytes, starts, lens),
    }
}

// Writes the lines of the variables' names.
pub fn write_names(
    version: DDDMPVersion,
    out: &mut [u8],
    at: usize,
    bytes: &[u8],
    starts: &[u32],
    lens: &[u32],
    order: &[u16],
    vars: &[u16],
    seats: &[u16],
) -> usize
    requires { NamesAsks out.old at bytes.now starts.now lens.now version order.now vars.now seats.now }
    ensures { NameLinesPromise (borrowed out) at (seen bytes) (seen starts) (seen lens) version (seen order) (seen seats) result }
{
    // With no variables there are no names either, and their lines are written empty.
    if lens.len() != order.len() {
        return at;
    }
    let supp_key = write_varnames(version, out, at, bytes, starts, lens);
    let supp_at = writers::text::put_bytes(out, supp_key, b".suppvarnames");
    let ordered_key = put_supp_names(out, supp_at, bytes, starts, lens, order, seats);
    let ordered_at = writers::text::put_bytes(out, ordered_key, b"\n.orderedvarnames");
    let end = put_ordered_names(out, ordered_at, bytes, starts, lens, order, vars);
    writers::text::put_byte(out, end, b'\n')
}

// Writes `.rootnames`, where the roots have names.
#[tactic(auto, unfolding(heading::specs::Lines::lines_text))]
pub fn write_rootnames(
    out: &mut [u8],
    at: usize,
    bytes: &[u8],
    starts: &[u32],
    lens: &[u32],
) -> usize
    requires { RootnamesAsks out.old at bytes.now starts.now lens.now }
    ensures { RootnamesPromise (borrowed out) at (seen bytes) (seen starts) (seen lens) result }
{
    if lens.len() == 0 {
        return at;
    }
    write_list(out, at, b".rootnames", bytes, starts, lens)
}
