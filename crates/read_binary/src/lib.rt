// Escaped bytes and 7-bit numbers of binary node lines.
#![tactic(auto)]

ghost use Rattle.std.specs.Prelude.{◌≡◌};
ghost use Rattle.codes.specs.Refusals.{step_of};
ghost use Rattle.read_binary.specs.Binary.{byte_at, number_at};

use codes::refusal::Refusal;

// Reads and unescapes the byte at a position, with the position after it.
#[tactic(auto, unfolding(crate::specs::Binary::byte_at, crate::specs::Binary::meant))]
pub fn read_unescape(f: &[u8], at: usize) -> Result<(u8, usize), Refusal>
    ensures { step_of result ≡ byte_at f.now at }
{
    if f.len() <= at {
        return Err(Refusal::EndsEarly);
    }
    if f[at] != 0 {
        return Ok((f[at], at + 1));
    }
    if f.len() <= at + 1 {
        return Err(Refusal::EndsEarly);
    }
    match f[at + 1] {
        0 => Ok((0x00, at + 2)),
        1 => Ok((0x0a, at + 2)),
        2 => Ok((0x0d, at + 2)),
        3 => Ok((0x1a, at + 2)),
        _ => Err(Refusal::BadEscape),
    }
}

// Decodes the 7-bit number at a position, unescaping its bytes, with the position after it.
pub fn decode_7bit(f: &[u8], at: usize) -> Result<(u64, usize), Refusal>
    ensures { step_of result ≡ number_at f.now at }
{
    let mut value: u64 = 0;
    let mut i = at;
    // Stays: a turn takes one byte or two.
    while i < f.len() {
        let (b, next) = read_unescape(f, i)?;
        // From 2^57 on one more group passes 64 bits. (The Rust's `checked_shl(7)` never fails, and loses them.)
        if 0x1ff_ffff_ffff_ffff < value {
            return Err(Refusal::Over64Bits);
        }
        value = value * 128 + u64::from(b / 2);
        if b % 2 == 0 {
            return Ok((value, next));
        }
        i = next;
    }
    Err(Refusal::EndsEarly)
}
