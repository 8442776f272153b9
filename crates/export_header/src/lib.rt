// The header of an export.
#![tactic(auto)]

ghost use Rattle.std.specs.Prelude.{◌≡◌, true, [], ◌∷◌};
ghost use Rattle.codes.specs.Lent.{borrowed, seen};
ghost use Rattle.read_text.specs.Text.{place};
ghost use Rattle.header_keys.specs.declared.Key.TheVariants.{Ver, Mode};
ghost use Rattle.export_names.specs.Names.{name_at, fit_place};
ghost use Rattle.writers.specs.Written.{FitsOut, Written};
ghost use Rattle.heading.specs.Lines.{line, line_text, lines_text};
ghost use Rattle.heading.specs.Heading.{version_text, mode_text, intro_lines};
ghost use Rattle.export_header.specs.Promises.{DiagramAsks, DiagramPromise, RootsAsks, RootsPromise, HeaderAsks, HeaderPromise};

use codes::DDDMPVersion;
use edges::{Edge, Index};

// Writes `.ver`.
#[tactic(auto, unfolding(writers::specs::Words::spaced))]
fn write_version(version: DDDMPVersion, out: &mut [u8], at: usize) -> usize
    requires { FitsOut out.old at (line_text (line Ver (version_text version ∷ []))) }
    ensures { Written (borrowed out) at (line_text (line Ver (version_text version ∷ []))) result }
{
    match version {
        DDDMPVersion::V2_0 => writers::text::put_bytes(out, at, b".ver DDDMP-2.0\n"),
        DDDMPVersion::V3_0 => writers::text::put_bytes(out, at, b".ver DDDMP-3.0\n"),
    }
}

// Writes `.mode`.
#[tactic(auto, unfolding(writers::specs::Words::spaced))]
fn write_mode(ascii: bool, out: &mut [u8], at: usize) -> usize
    requires { FitsOut out.old at (line_text (line Mode (mode_text ascii ∷ []))) }
    ensures { Written (borrowed out) at (line_text (line Mode (mode_text ascii ∷ []))) result }
{
    if ascii {
        return writers::text::put_bytes(out, at, b".mode A\n");
    }
    writers::text::put_bytes(out, at, b".mode B\n")
}

// Writes `.dd`, where the diagram has a name.
#[tactic(auto, unfolding(heading::specs::Lines::lines_text, writers::specs::Words::spaced))]
fn write_diagram(out: &mut [u8], at: usize, bytes: &[u8], start: u32, len: u32) -> usize
    requires { DiagramAsks out.old at bytes.now start len }
    ensures { DiagramPromise (borrowed out) at (seen bytes) start len result }
{
    if len == 0 {
        return at;
    }
    let name_at = writers::text::put_bytes(out, at, b".dd ");
    let end = head_names::put_place(out, name_at, bytes, start, len);
    writers::text::put_byte(out, end, b'\n')
}

// Writes `.ver`, `.mode`, `.varinfo` and, where the diagram has a name, `.dd`.
#[tactic(auto, unfolding(heading::specs::Lines::lines_text, heading::specs::Heading::intro_lines, writers::specs::Words::spaced))]
fn write_intro(
    version: DDDMPVersion,
    ascii: bool,
    out: &mut [u8],
    at: usize,
    bytes: &[u8],
    start: u32,
    len: u32,
) -> usize
    requires len_value { fit_place true bytes.now (place start len) ≡ true }
    requires fits_out { FitsOut out.old at (lines_text (intro_lines version ascii (name_at bytes.now (place start len)))) }
    ensures { Written (borrowed out) at (lines_text (intro_lines version ascii (name_at bytes.now (place start len)))) result }
{
    let mode_at = write_version(version, out, at);
    let varinfo_at = write_mode(ascii, out, mode_at);
    let dd_at = writers::text::put_bytes(out, varinfo_at, b".varinfo 4\n");
    write_diagram(out, dd_at, bytes, start, len)
}

// Writes `.nroots`, `.rootids` and, where the roots have names, `.rootnames`.
#[tactic(auto, unfolding(heading::specs::Lines::lines_text, heading::specs::Heading::root_lines))]
fn write_roots(
    out: &mut [u8],
    at: usize,
    roots: &[Edge],
    numbers: &[Index],
    bytes: &[u8],
    starts: &[u32],
    lens: &[u32],
) -> usize
    requires { RootsAsks out.old at roots.now numbers.now bytes.now starts.now lens.now }
    ensures { RootsPromise (borrowed out) at (seen roots) (seen numbers) (seen bytes) (seen starts) (seen lens) result }
{
    let ids_key = head_numbers::write_count(out, at, b".nroots", roots.len());
    let ids_at = writers::text::put_bytes(out, ids_key, b".rootids");
    let ids_end = head_numbers::put_roots(out, ids_at, roots, numbers);
    let names_at = writers::text::put_byte(out, ids_end, b'\n');
    head_names::write_rootnames(out, names_at, bytes, starts, lens)
}

// Writes the header, up to the line `.nodes`. `bytes` holds the names, `starts` and `lens` the places of the variables', `rootstarts` and
// `rootlens` of the roots'; `vars` each level's variable and `seats` its seat in the support, `numbers` the line's number of each node.
pub fn write_header(
    version: DDDMPVersion,
    ascii: bool,
    out: &mut [u8],
    at: usize,
    bytes: &[u8],
    starts: &[u32],
    lens: &[u32],
    rootstarts: &[u32],
    rootlens: &[u32],
    ddstart: u32,
    ddlen: u32,
    nnodes: usize,
    nsuppvars: u16,
    order: &[u16],
    vars: &[u16],
    seats: &[u16],
    roots: &[Edge],
    numbers: &[Index],
) -> usize
    requires { HeaderAsks version ascii out.old at bytes.now starts.now lens.now rootstarts.now rootlens.now ddstart ddlen nnodes nsuppvars
        order.now vars.now seats.now roots.now numbers.now }
    ensures { HeaderPromise version ascii (borrowed out) at (seen bytes) (seen starts) (seen lens) (seen rootstarts) (seen rootlens) ddstart ddlen nnodes
        (seen order) (seen seats) (seen roots) (seen numbers) result }
{
    let counts_at = write_intro(version, ascii, out, at, bytes, ddstart, ddlen);
    let names_at = head_numbers::write_counts(
        out,
        counts_at,
        nnodes,
        order.len(),
        nsuppvars as usize,
    );
    let ids_at = head_names::write_names(
        version, out, names_at, bytes, starts, lens, order, vars, seats,
    );
    let roots_at = head_numbers::write_ids(out, ids_at, order, vars, seats);
    let nodes_at = write_roots(out, roots_at, roots, numbers, bytes, rootstarts, rootlens);
    writers::text::put_bytes(out, nodes_at, b".nodes\n")
}
