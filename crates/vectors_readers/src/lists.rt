// Cases of lists. The lent list is filled beforehand, so that the answer shows what the reader left as it was.
use crate::answer;
use codes::refusal::Refusal;

// What each entry of a lent list is before the call.
pub const FILL: u32 = 0x5a5a5a5a;

// The longest list that a case can ask for: more than the 4,096 entries of the longest list of a file.
pub const ROOM: usize = 4100;

// The list is lent to `read`; `number` is the number that stands in the answer for an entry.
pub fn list<'a, T, Read, Number>(
    list: &mut [T],
    read: Read,
    number: Number,
    stored: &'a [u8],
) -> Option<&'a [u8]>
where
    T: Copy,
    Read: FnOnce(&mut [T]) -> Result<usize, Refusal>,
    Number: Fn(T) -> u64,
    requires reads { Read.IsAlwaysCallable read }
    requires numbers { Number.IsAlwaysCallable number }
{
    let count = read(list);
    let left = answer::after_result(stored, count.map(|n| [n as u64]))?;
    answer::after_entries(left, list, number)
}

pub fn children<'a>(input: &[u8], stored: &'a [u8]) -> Option<&'a [u8]> {
    let read = read_edges::parse_children(input);
    answer::after_result(
        stored,
        read.map(|c| {
            [
                c.count as u64,
                c.first.cast_unsigned(),
                c.second.cast_unsigned(),
            ]
        }),
    )
}

pub fn name_list<'a>(
    input: &[u8],
    base: usize,
    max: usize,
    room: usize,
    stored: &'a [u8],
) -> Option<&'a [u8]> {
    let base = u32::try_from(base).ok()?;
    if input.len() > (u32::MAX - base) as usize {
        return None;
    }
    let mut starts = [FILL; ROOM];
    let mut lens = [FILL; ROOM];
    let starts = starts.get_mut(..room)?;
    let lens = lens.get_mut(..room)?;
    let count = read_text::parse_str_list(input, base, max, starts, lens);
    let left = answer::after_result(stored, count.map(|n| [n as u64]))?;
    let left = answer::after_entries(left, starts, u64::from)?;
    answer::after_entries(left, lens, u64::from)
}
