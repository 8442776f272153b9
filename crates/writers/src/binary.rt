// Escaped bytes and 7-bit numbers.
ghost use Rattle.codes.specs.Lent.{borrowed};
ghost use Rattle.std.specs.Prelude.{◌≡◌, ◌+◌, ◌*◌, ◌<◌};
ghost use Rattle.writers.specs.Binary.{escaped, escaped_all, groups_by, seven_bit};
ghost use Rattle.writers.specs.Written.{FitsOut, Written};

// Writes a byte, escaped where it must be.
pub fn write_escaped(out: &mut [u8], at: usize, b: u8) -> usize
    requires { FitsOut out.old at (escaped b) }
    ensures { Written (borrowed out) at (escaped b) result }
{
    let code = match b {
        0x00 => 0x00,
        0x0a => 0x01,
        0x0d => 0x02,
        0x1a => 0x03,
        _ => {
            out[at] = b;
            return at + 1;
        }
    };
    out[at] = 0x00;
    out[at + 1] = code;
    at + 2
}

// A group's byte: seven bits, and whether more follow.
fn group(bits: u64, more: u8) -> u8
    requires { (bits < 128) × (more < 2) }
    ensures { result ≡ bits * 2 + more }
{
    bits as u8 * 2 + more
}

// Writes a number in 7-bit groups, highest first: each but the last says that more follow, and the last says what `more` does.
fn put_groups(out: &mut [u8], at: usize, more: u8, n: u64) -> usize
    requires { (more < 2) × FitsOut out.old at (escaped_all (groups_by 9 more n)) }
    ensures { Written (borrowed out) at (escaped_all (groups_by 9 more n)) result }
{
    if n < 128 {
        return write_escaped(out, at, group(n, more));
    }
    let end = put_groups(out, at, 1, n / 128);
    write_escaped(out, end, group(n % 128, more))
}

// Encodes a number in 7-bit groups and writes it, escaped.
#[tactic(auto, unfolding(crate::specs::Binary::groups, crate::specs::Binary::seven_bit))]
pub fn encode_7bit(out: &mut [u8], at: usize, n: u64) -> usize
    requires { FitsOut out.old at (seven_bit n) }
    ensures { Written (borrowed out) at (seven_bit n) result }
{
    put_groups(out, at, 0, n)
}
