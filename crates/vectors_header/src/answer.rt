// Stored answers: numbers of 32 bits, lowest byte first. A refusal and its line; or 0 and the header's numbers; then each list as the number of its
// entries and these. The answer of a call is taken off the front of the stored one, in its order: each function gives what is left, or none where
// the stored answer goes on with something else.
use codes::refusal::Fault;
use header::DumpHeader;

// The number that stands first, and what is left after it.
fn first(stored: &[u8]) -> Option<(u64, &[u8])> {
    let (number, left) = stored.split_at_checked(4)?;
    Some((replay::four(number, 0), left))
}

// After some entries, each of which stands there as a number.
fn after_entries<'a, T: Copy, F: Fn(T) -> u64>(
    stored: &'a [u8],
    entries: &[T],
    number: &F,
) -> Option<&'a [u8]>
    requires { F.IsAlwaysCallable number.now }
{
    let mut left = stored;
    for x in entries {
        let (n, others) = first(left)?;
        if n != number(*x) {
            return None;
        }
        left = others;
    }
    Some(left)
}

// The numbers of a header.
fn numbers(h: DumpHeader) -> [u64; 11] {
    [
        0,
        u64::from(h.ascii),
        h.varinfo as u64,
        u64::from(h.dd.start),
        u64::from(h.dd.len),
        h.nnodes,
        u64::from(h.nvars),
        u64::from(h.nsuppvars),
        h.nroots,
        h.next as u64,
        h.lines as u64,
    ]
}

// After the numbers of an answer.
pub fn after_loaded(stored: &[u8], loaded: Result<DumpHeader, Fault>) -> Option<&[u8]> {
    match loaded {
        Ok(h) => after_entries(stored, &numbers(h), &|n| n),
        Err(fault) => after_entries(
            stored,
            &[u64::from(fault.number), fault.line as u64],
            &|n| n,
        ),
    }
}

// After a list: how many entries it has, and these. Where the answer ends, the lists that follow have none. The lent list is zeros after its entries.
pub fn after_list<'a, T: Copy, F: Fn(T) -> u64>(
    stored: &'a [u8],
    list: &[T],
    number: F,
) -> Option<&'a [u8]>
    requires { F.IsAlwaysCallable number }
{
    let (count, left) = if stored.is_empty() {
        (0, stored)
    } else {
        first(stored)?
    };
    let (entries, others) = list.split_at_checked(count as usize)?;
    // With no early end, so that many entries are looked at at once: most lists of a case are zeros.
    let mut zeros = true;
    for x in others {
        zeros &= number(*x) == 0;
    }
    if !zeros {
        return None;
    }
    after_entries(left, entries, &number)
}
