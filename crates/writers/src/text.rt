// Bytes and decimal numbers.
ghost use Rattle.std.specs.Prelude.{◌≡◌, ◌+◌, ◌<◌, [], ◌∷◌, length};
ghost use Rattle.codes.specs.Lent.{borrowed};
ghost use Rattle.writers.specs.Decimal.{decimal, edge_text};
ghost use Rattle.writers.specs.Written.{FitsOut, Written};

use edges::Edge;

// Writes one byte.
pub fn put_byte(out: &mut [u8], at: usize, b: u8) -> usize
    requires { at < length out.old }
    ensures { Written (borrowed out) at (b ∷ []) result }
{
    out[at] = b;
    at + 1
}

// Writes bytes as they are, one after another: a copy of all at once would be a call of the C library.
pub fn put_bytes(out: &mut [u8], at: usize, bytes: &[u8]) -> usize
    requires { FitsOut out.old at bytes.now }
    ensures { Written (borrowed out) at bytes.now result }
{
    for (i, b) in bytes.iter().enumerate() {
        out[at + i] = *b;
    }
    at + bytes.len()
}

// The digit of a number below ten.
fn digit(n: u64) -> u8
    requires { n < 10 }
    ensures { result ≡ 48 + n }
{
    b'0' + n as u8
}

// Writes a number in decimal digits.
pub fn put_decimal(out: &mut [u8], at: usize, n: u64) -> usize
    requires { FitsOut out.old at (decimal n) }
    ensures { Written (borrowed out) at (decimal n) result }
{
    if n < 10 {
        out[at] = digit(n);
        return at + 1;
    }
    let end = put_decimal(out, at, n / 10);
    out[end] = digit(n % 10);
    end + 1
}

// Writes an edge: a minus, where it has one, and its node's number.
pub fn put_edge(out: &mut [u8], at: usize, e: Edge) -> usize
    requires { FitsOut out.old at (edge_text e) }
    ensures { Written (borrowed out) at (edge_text e) result }
{
    let n = edges::magnitude(e) as u64;
    if edges::is_minus(e) {
        out[at] = b'-';
        return put_decimal(out, at + 1, n);
    }
    put_decimal(out, at, n)
}
