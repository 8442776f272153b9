// A node line of text.
ghost use Rattle.codes.specs.Lent.{borrowed};
ghost use Rattle.std.specs.Prelude.{◌∷◌};
ghost use Rattle.writers.specs.Decimal.{decimal, edge_text};
ghost use Rattle.writers.specs.Written.{FitsOut, Written};
ghost use Rattle.node_lines.specs.Line.{terminal, inner};
ghost use Rattle.node_writers.specs.Encoded.{text_bytes};

use edges::{Edge, Index};

// Writes the terminal's line.
#[tactic(auto, unfolding(crate::specs::Encoded::text_bytes, writers::specs::Words::spaced))]
pub fn put_terminal(out: &mut [u8], at: usize, n: Index) -> usize
    requires { FitsOut out.old at (text_bytes n terminal) }
    ensures { Written (borrowed out) at (text_bytes n terminal) result }
{
    let next = writers::text::put_decimal(out, at, n as u64);
    writers::text::put_bytes(out, next, b" T 0 0\n")
}

// Writes a number after a space.
fn put_number(out: &mut [u8], at: usize, n: u16) -> usize
    requires { FitsOut out.old at (0x20 ∷ decimal n) }
    ensures { Written (borrowed out) at (0x20 ∷ decimal n) result }
{
    let next = writers::text::put_byte(out, at, b' ');
    writers::text::put_decimal(out, next, n as u64)
}

// Writes an edge after a space.
fn put_edge(out: &mut [u8], at: usize, e: Edge) -> usize
    requires { FitsOut out.old at (0x20 ∷ edge_text e) }
    ensures { Written (borrowed out) at (0x20 ∷ edge_text e) result }
{
    let next = writers::text::put_byte(out, at, b' ');
    writers::text::put_edge(out, next, e)
}

// Writes a line of a support position and two children.
#[tactic(auto, unfolding(crate::specs::Encoded::text_bytes, writers::specs::Words::spaced))]
pub fn put_inner(out: &mut [u8], at: usize, n: Index, p: u16, t: Edge, e: Edge) -> usize
    requires { FitsOut out.old at (text_bytes n (inner p t e)) }
    ensures { Written (borrowed out) at (text_bytes n (inner p t e)) result }
{
    let variable = writers::text::put_decimal(out, at, n as u64);
    let then = put_number(out, variable, p);
    let els = put_edge(out, then, t);
    let end = put_edge(out, els, e);
    writers::text::put_byte(out, end, b'\n')
}
