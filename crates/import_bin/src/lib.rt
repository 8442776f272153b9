// Node lines in binary.
#![tactic(auto)]

ghost use Rattle.std.specs.Prelude.{◌≡◌, ◌-◌, ◌≤◌, ◌<◌, length, get_or};
ghost use Rattle.edges.specs.Width.{edge_limit, position_limit};
ghost use Rattle.codes.specs.Refusals.{step_of};
ghost use Rattle.node_lines.specs.Kinds.{of_decoded};
ghost use Rattle.read_edges.specs.Edges.{signed};
ghost use Rattle.import_bin.specs.Kinds.{of_position};
ghost use Rattle.import_bin.specs.Bin.{counts_from, position_by, placed_at, resolved, inner_at, bin_line_at};

use codes::Code;
use codes::refusal::Refusal;
use edges::{Edge, Index};
use node_lines::NodeLine;

// What a relative variable counts down from, by the seats of the children.
fn counts_from(count: u16, t: u16, e: u16) -> u16
    ensures { result ≡ counts_from count t e }
{
    match (t, e) {
        (0, 0) => count,
        (0, _) => e - 1,
        (_, 0) => t - 1,
        _ => t.min(e) - 1,
    }
}

// The support position of a line.
fn position_by(code: Code, from: u16, v: u64) -> Result<u64, Refusal>
    ensures { of_position result ≡ position_by code from v }
{
    match code {
        Code::Terminal => Err(Refusal::BadVariable),
        Code::AbsoluteID => Ok(v),
        Code::RelativeID | Code::Relative1 => {
            u64::from(from).checked_sub(v).ok_or(Refusal::BadVariable)
        }
    }
}

// A child with its sign.
fn signed(complement: bool, e: Index) -> Edge
    requires { e < edge_limit }
    ensures { result ≡ signed complement e }
{
    if complement { -(e as Edge) } else { e as Edge }
}

// A line at a support position, if it is one, above both children, with the position after it.
fn placed(
    levels: &[u16],
    seats: &[u16],
    t: Index,
    e: Index,
    els: Edge,
    next: usize,
    p: u64,
) -> Result<(NodeLine, usize), Refusal>
    requires { (1 ≤ t) × (1 ≤ e) × (t < edge_limit) × (length levels.now < position_limit) }
    ensures { of_decoded result ≡ placed_at levels.now seats.now t e els next p }
{
    if (levels.len() as u64) <= p {
        return Err(Refusal::BadVariable);
    }
    let level = levels[p as usize];
    if !node_lines::deeper(levels, seats, level, t)
        || !node_lines::deeper(levels, seats, level, e)
    {
        return Err(Refusal::BadLevel);
    }
    Ok((NodeLine::Inner(p as u16, signed(false, t), els), next))
}

// The seat of a line, 0 beyond those so far.
fn seat(seats: &[u16], line: Index) -> u16
    requires { 1 ≤ line }
    ensures { result ≡ get_or seats.now (line - 1) 0 }
{
    seats.get(line as usize - 1).copied().unwrap_or(0)
}

// A line whose children are read, with the position after it.
fn resolved(
    count: u16,
    levels: &[u16],
    seats: &[u16],
    code: Code,
    v: u64,
    complement: bool,
    t: Index,
    e: Index,
    next: usize,
) -> Result<(NodeLine, usize), Refusal>
    requires { (1 ≤ t) × (1 ≤ e) × (t < edge_limit) × (e < edge_limit) × (length levels.now < position_limit) }
    ensures { of_decoded result ≡ resolved count levels.now seats.now code v complement t e next }
{
    let from = counts_from(count, seat(seats, t), seat(seats, e));
    let p = position_by(code, from, v)?;
    placed(levels, seats, t, e, signed(complement, e), next, p)
}

// A line of a variable and two children, with the position after it: its numbers follow the code byte `b`, in this order. Each step passes
// on the first refusal so far, and then's check comes before else's number is read.
fn inner_at(
    count: u16,
    levels: &[u16],
    seats: &[u16],
    node: Index,
    f: &[u8],
    b: u8,
    code: Code,
    at: usize,
) -> Result<(NodeLine, usize), Refusal>
    requires { (node < edge_limit) × (length levels.now < position_limit) }
    ensures { of_decoded result ≡ inner_at count levels.now seats.now node f.now b code at }
{
    let v = line_numbers::variable_at(code, f, at);
    let t = line_numbers::id_after(Code::from(b / 8), node, f, v);
    let then = line_numbers::below(node, t);
    let e = line_numbers::id_after(Code::from(b), node, f, then);
    let (e, next) = line_numbers::below(node, e)?;
    let (t, _) = then?;
    let (v, _) = v?;
    let complement = (b / 4) % 2 == 1;
    resolved(
        count, levels, seats, code, v, complement, t as Index, e as Index, next,
    )
}

// The node line at a position of a file, with the position after it. The level list has a level for each support position; `seats` has, for
// each line before, its support position counted from 1, and 0 for a terminal line; `count` is the store's level count.
#[tactic(auto, using(std::proofs::lemmas::Result::err_from_is_err_and), unfolding(crate::specs::Bin::bin_line_at))]
pub fn line_at(
    f: &[u8],
    at: usize,
    count: u16,
    levels: &[u16],
    seats: &[u16],
    node: Index,
) -> Result<(NodeLine, usize), Refusal>
    requires { (node < edge_limit) × (length levels.now < position_limit) }
    ensures { of_decoded result ≡ bin_line_at count levels.now seats.now node f.now at }
{
    let (b, next) = read_binary::read_unescape(f, at)?;
    match Code::from(b / 32) {
        Code::Terminal => Ok((NodeLine::Terminal, next)),
        code => inner_at(count, levels, seats, node, f, b, code, next),
    }
}
