// Node lines of text.
#![tactic(auto)]

ghost use Rattle.std.specs.Prelude.{◌≡◌, ◌≤◌, ◌<◌, length, nat_abs};
ghost use Rattle.codes.specs.Answer.{value};
ghost use Rattle.codes.specs.Limits.{node_limit};
ghost use Rattle.codes.specs.Refusals.{fault_of};
ghost use Rattle.edges.specs.Width.{position_limit};
ghost use Rattle.node_lines.specs.Kinds.{of_decoded};
ghost use Rattle.node_lines.specs.Line.{child_fault};
ghost use Rattle.read_edges.specs.Edges.{pair};
ghost use Rattle.import_ascii.specs.Kinds.{of_parsed};
ghost use Rattle.import_ascii.specs.Text.{described_t, variable, described, text_line, text_line_at};

use codes::refusal::Refusal;
use edges::Index;
use node_lines::NodeLine;
use read_edges::Children;

// The check of a child of a line at a level.
#[tactic(auto, unfolding(node_lines::specs::Line::child_fault))]
fn child_fault(
    levels: &[u16],
    seats: &[u16],
    node: Index,
    level: u16,
    child: i64,
) -> Result<(), Refusal>
    requires { 1 ≤ nat_abs child }
    ensures { fault_of result ≡ child_fault levels.now seats.now node level child }
{
    let m = child.unsigned_abs();
    if u64::from(node) <= m {
        return Err(Refusal::BadChild);
    }
    if !node_lines::deeper(levels, seats, level, m as Index) {
        return Err(Refusal::BadLevel);
    }
    Ok(())
}

// A terminal line.
fn terminal(word: &[u8]) -> Result<NodeLine, Refusal>
    ensures { of_parsed result ≡ described_t word.now }
{
    if !read_text::same(word, b"T") {
        return Err(Refusal::BadTerminal);
    }
    Ok(NodeLine::Terminal)
}

// A line at a support position, if it is one, over two children of which none is 0.
#[tactic(auto, using(std::proofs::lemmas::Result::err_from_is_err_and))]
fn at_position(
    levels: &[u16],
    seats: &[u16],
    node: Index,
    p: u32,
    t: i64,
    e: i64,
) -> Result<NodeLine, Refusal>
    requires { (1 ≤ nat_abs t) × (1 ≤ nat_abs e) × (node ≤ node_limit) × (length levels.now < position_limit) }
    ensures { of_parsed result ≡ variable levels.now seats.now node t e (value p) }
{
    let level = *levels.get(p as usize).ok_or(Refusal::BadVariable)?;
    child_fault(levels, seats, node, level, t)?;
    child_fault(levels, seats, node, level, e)?;
    Ok(NodeLine::Inner(p as u16, file_roots::edge_of(t), file_roots::edge_of(e)))
}

// A line of a variable word and its children, which were read whole before.
#[tactic(auto, using(std::proofs::lemmas::Result::err_from_is_err_and))]
fn described(
    word: &[u8],
    c: Children,
    levels: &[u16],
    seats: &[u16],
    node: Index,
) -> Result<NodeLine, Refusal>
    requires { (node ≤ node_limit) × (length levels.now < position_limit) }
    ensures { of_parsed result ≡ described levels.now seats.now node word.now (value (pair c.count c.first c.second)) }
{
    if c.count != 2 {
        return Err(Refusal::BadLine);
    }
    if c.first == 0 || c.second == 0 {
        return terminal(word);
    }
    let p = read_numbers::parse_single::<u32>(word)?;
    at_position(levels, seats, node, p, c.first, c.second)
}

// A line of these bytes.
#[tactic(auto, using(std::proofs::lemmas::Result::err_from_is_err_and), unfolding(crate::specs::Text::text_line))]
fn text_line(
    extra: bool,
    levels: &[u16],
    seats: &[u16],
    node: Index,
    s: &[u8],
) -> Result<NodeLine, Refusal>
    requires { (node ≤ node_limit) × (length levels.now < position_limit) }
    ensures { of_parsed result ≡ text_line extra levels.now seats.now node s.now }
{
    let (start, end) = line_words::variable_word(extra, node, s)?;
    let c = read_edges::parse_children(&s[end..])?;
    described(&s[start..end], c, levels, seats, node)
}

// The node line at a position of a file, with the position after it. The level list has a level for each support position; `seats` has, for
// each line before, its support position counted from 1, and 0 for a terminal line.
#[tactic(auto, using(std::proofs::lemmas::Result::err_from_is_err_and), unfolding(crate::specs::Text::text_line_at))]
pub fn line_at(
    f: &[u8],
    at: usize,
    extra: bool,
    levels: &[u16],
    seats: &[u16],
    node: Index,
) -> Result<(NodeLine, usize), Refusal>
    requires { (node ≤ node_limit) × (length levels.now < position_limit) }
    ensures { of_decoded result ≡ text_line_at extra levels.now seats.now node f.now at }
{
    if f.len() <= at {
        return Err(Refusal::EndsEarly);
    }
    let bounds = read_lines::line_at(f, at);
    let line = text_line(extra, levels, seats, node, &f[at..bounds.end])?;
    Ok((line, bounds.next))
}
