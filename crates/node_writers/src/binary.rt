// A node line in binary.
ghost use Rattle.codes.specs.Lent.{borrowed};
ghost use Rattle.std.specs.Prelude.{◌≡◌, false, ◌-◌, ◌<◌, nat_abs};
ghost use Rattle.codes.specs.declared.Code.TheVariants.{Terminal};
ghost use Rattle.writers.specs.Binary.{escaped};
ghost use Rattle.writers.specs.Written.{FitsOut, Written};
ghost use Rattle.node_writers.specs.Encoded.{code_bits, code_byte, number_for, child_code, smaller, variable_code, inner_bytes};

use codes::Code;
use edges::{Edge, Index};

fn code_bits(code: Code) -> u8
    ensures value { result ≡ code_bits code }
    ensures upper_bound { result < 4 }
{
    code as u8
}

fn node_code(variable: Code, then: Code, complement: bool, els: Code) -> u8
    ensures { result ≡ code_byte variable then complement els }
{
    let codes = code_bits(variable) * 32 + code_bits(then) * 8 + code_bits(els);
    if complement { codes + 4 } else { codes }
}

// The code of a child of line n.
#[tactic(auto, unfolding(crate::specs::Encoded::child_code))]
fn child_code(n: Index, c: Index) -> Code
    requires { c < n }
    ensures { result ≡ child_code n c }
{
    if c == 1 {
        return Code::Terminal;
    }
    if n - c == 1 {
        return Code::Relative1;
    }
    if n - c < c {
        return Code::RelativeID;
    }
    Code::AbsoluteID
}

// The smaller seat of two children, of which 0 is a terminal's; 0 over two terminals.
pub fn smaller(t: u16, e: u16) -> u16
    ensures { result ≡ smaller t e }
{
    if t == 0 {
        return e;
    }
    if e == 0 {
        return t;
    }
    t.min(e)
}

// How far a support position lies before that of a seat; 0 where it doesn't.
fn distance(p: u16, seat: u16) -> u16
    ensures { result ≡ seat - 1 - p }
{
    seat.saturating_sub(1).saturating_sub(p)
}

// The code of a variable at support position p, by the seat that it may count down from.
#[tactic(auto, unfolding(crate::specs::Encoded::variable_code))]
fn variable_code(p: u16, seat: u16) -> Code
    ensures { result ≡ variable_code p seat }
{
    if seat == 0 {
        return Code::AbsoluteID;
    }
    let d = distance(p, seat);
    if d == 1 {
        return Code::Relative1;
    }
    if d < p {
        return Code::RelativeID;
    }
    Code::AbsoluteID
}

// Writes the number that follows a code.
fn put_number(out: &mut [u8], at: usize, code: Code, absolute: u64, distance: u64) -> usize
    requires { FitsOut out.old at (number_for code absolute distance) }
    ensures { Written (borrowed out) at (number_for code absolute distance) result }
{
    match code {
        Code::Terminal | Code::Relative1 => at,
        Code::AbsoluteID => writers::binary::encode_7bit(out, at, absolute),
        Code::RelativeID => writers::binary::encode_7bit(out, at, distance),
    }
}

// Writes the terminal's line.
pub fn put_terminal(out: &mut [u8], at: usize) -> usize
    requires { FitsOut out.old at (escaped (code_byte Terminal Terminal false Terminal)) }
    ensures { Written (borrowed out) at (escaped (code_byte Terminal Terminal false Terminal)) result }
{
    let code = node_code(Code::Terminal, Code::Terminal, false, Code::Terminal);
    writers::binary::write_escaped(out, at, code)
}

// Writes a line of a support position and two children, by the seat that its variable may count down from.
pub fn put_inner(out: &mut [u8], at: usize, n: Index, p: u16, t: Edge, e: Edge, seat: u16) -> usize
    requires t_bound { (nat_abs t < n) × (nat_abs e < n) }
    requires fits_out { FitsOut out.old at (inner_bytes n p t e seat) }
    ensures { Written (borrowed out) at (inner_bytes n p t e seat) result }
{
    let then = edges::magnitude(t);
    let els = edges::magnitude(e);
    let variable_by = variable_code(p, seat);
    let then_by = child_code(n, then);
    let else_by = child_code(n, els);
    let code = node_code(variable_by, then_by, edges::is_minus(e), else_by);
    let variable_at = writers::binary::write_escaped(out, at, code);
    let then_at = put_number(
        out,
        variable_at,
        variable_by,
        p as u64,
        distance(p, seat) as u64,
    );
    let else_at = put_number(out, then_at, then_by, then as u64, (n - then) as u64);
    put_number(out, else_at, else_by, els as u64, (n - els) as u64)
}
