// Lists of unsigned numbers.
#![tactic(auto)]

ghost use Rattle.std.specs.Prelude.{◌≡◌, set};
ghost use Rattle.codes.specs.Lent.{laid};
ghost use Rattle.codes.specs.Refusals.{read_of};
ghost use Rattle.read_lists.specs.Lists.{u32_list};

use codes::refusal::Refusal;
use read_lines::Words;
use read_numbers::Role;

// Stores an entry where the lent list reaches that far: a reader that only counts is lent a shorter one.
pub fn put<T: Copy>(dst: &mut [T], at: usize, x: T)
    ensures { dst.new ≡ set dst.old at x }
{
    if at < dst.len() {
        dst[at] = x;
    }
}

// Reads the entries, at most `max`, over the front of `dst`; on a refusal those before the fault.
pub fn parse_u32_list(input: &[u8], max: usize, dst: &mut [u32]) -> Result<usize, Refusal>
    ensures result_value { read_of result ≡ (u32_list max input.now).answer }
    ensures dst_after { dst.new ≡ laid (u32_list max input.now).entries dst.old }
{
    let mut n: usize = 0;
    for (_, word) in Words::of(input, 0) {
        let value = read_numbers::parse_digits(word, u32::MAX as u64, Role::Entry)?;
        if max <= n {
            return Err(Refusal::OverLimit);
        }
        put(dst, n, value as u32);
        n += 1;
    }
    Ok(n)
}
