// Edge lists: the roots of a file, and the children of a text node line.
#![tactic(auto)]

ghost use Rattle.std.specs.Prelude.{◌≡◌, ◌<◌, ◌^◌};
ghost use Rattle.codes.specs.Lent.{laid};
ghost use Rattle.codes.specs.Refusals.{read_of};
ghost use Rattle.read_edges.specs.Edges.{signed, magnitude_of, entry_bytes, edge_list, children};
ghost use Rattle.read_edges.specs.Kinds.{of_children};

use codes::refusal::Refusal;
use read_lines::Words;
use read_numbers::Role;

// The children of a line: how many there are, and the first two, 0 where there are fewer.
#[derive(Clone, Copy, PartialEq, Eq)]
pub struct Children {
    pub count: usize,
    pub first: i64,
    pub second: i64,
}

fn signed(minus: bool, magnitude: u64) -> i64
    requires { magnitude < 2 ^ 63 }
    ensures { result ≡ signed minus magnitude }
{
    if minus {
        -(magnitude as i64)
    } else {
        magnitude as i64
    }
}

// Digits, after a minus or with none.
fn parse_magnitude(minus: bool, input: &[u8]) -> Result<i64, Refusal>
    ensures { read_of result ≡ magnitude_of minus input.now }
{
    let magnitude = read_numbers::parse_digits(input, i64::MAX as u64, Role::Magnitude)?;
    Ok(signed(minus, magnitude))
}

// An optional minus and digits.
fn parse_entry(input: &[u8]) -> Result<i64, Refusal>
    ensures { read_of result ≡ entry_bytes input.now }
{
    let Some(digits) = input.strip_prefix(b"-") else {
        return parse_magnitude(false, input);
    };
    // A blank or the end stands behind this minus.
    if digits.is_empty() {
        return Err(Refusal::MisplacedMinus);
    }
    parse_magnitude(true, digits)
}

// Reads the edges, at most `max`, over the front of `dst`; on a refusal those before the fault.
pub fn parse_edge_list(input: &[u8], max: usize, dst: &mut [i64]) -> Result<usize, Refusal>
    ensures result_value { read_of result ≡ (edge_list max input.now).answer }
    ensures dst_after { dst.new ≡ laid (edge_list max input.now).entries dst.old }
{
    let mut n: usize = 0;
    for (_, word) in Words::of(input, 0) {
        let edge = parse_entry(word)?;
        if max <= n {
            return Err(Refusal::OverLimit);
        }
        read_lists::put(dst, n, edge);
        n += 1;
    }
    Ok(n)
}

// The children of a text node line: all are read and counted, two are kept.
pub fn parse_children(input: &[u8]) -> Result<Children, Refusal>
    ensures { of_children result ≡ children input.now }
{
    let mut pair = [0i64; 2];
    let count = parse_edge_list(input, input.len(), &mut pair)?;
    let [first, second] = pair;
    Ok(Children {
        count,
        first,
        second,
    })
}
