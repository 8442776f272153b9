// Stored answers: a byte, the refusal or 0, then numbers of 64 bits, lowest byte first. The answers of a call are taken off the front of the stored
// one, in their order: each function gives what is left, or none where the stored answer goes on with something else.

use codes::refusal::Refusal;

// After the entries of a list.
pub fn after_entries<'a, T: Copy, F: Fn(T) -> u64>(
    stored: &'a [u8],
    entries: &[T],
    number: F,
) -> Option<&'a [u8]>
    requires { F.IsAlwaysCallable number }
{
    let mut left = stored;
    for x in entries {
        left = left.strip_prefix(&number(*x).to_le_bytes())?;
    }
    Some(left)
}

// After the refusal, or after 0 and the numbers of a value.
pub fn after_result<const N: usize>(
    stored: &[u8],
    read: Result<[u64; N], Refusal>,
) -> Option<&[u8]> {
    match read {
        Ok(numbers) => after_entries(stored.strip_prefix(&[0])?, &numbers, |n| n),
        Err(r) => stored.strip_prefix(&[r.number()]),
    }
}
