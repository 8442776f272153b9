// The line that tells a refusal.
#![tactic(auto)]

ghost use Rattle.std.specs.Prelude.{◌≡◌, length, replicate};
ghost use Rattle.codes.specs.Lent.{laid};
ghost use Rattle.recode_text.specs.Text.{refusal_text};

// Writes `refused N line M` and LF over the front of a list, and zeros after it; answers the line's length.
// Stays: n is a number, as in `Fault`: a load hands on whatever number was found before it.
pub fn write_refusal(n: u8, line: usize, out: &mut [u8; 64]) -> usize
    ensures value { result ≡ length (refusal_text n line) }
    ensures out_after { out.new ≡ laid (refusal_text n line) (replicate 64 0) }
{
    out.fill(0);
    let number_at = writers::text::put_bytes(out, 0, b"refused ");
    let word_at = writers::text::put_decimal(out, number_at, n as u64);
    let line_at = writers::text::put_bytes(out, word_at, b" line ");
    let end = writers::text::put_decimal(out, line_at, line as u64);
    writers::text::put_byte(out, end, b'\n')
}
