// The call on lent lists. They are filled beforehand, so that what the call left as it was is seen.
ghost use Rattle.std.specs.Prelude.{◌≡◌, ◌+◌, ◌≤◌};
ghost use Rattle.codes.specs.Limits.{limits};
ghost use Rattle.header.specs.Header.{MayRead, lists_fault};

use crate::answer;
use edges::Edge;
use header::DumpHeader;

// What each entry of a lent list is before the call.
const FILL: u32 = 0x5a5a5a5a;

const EDGE_FILL: Edge = 0x5a5a;

// The longest lists that a case can ask for: more than the 4,096 entries of a variable list, and than the 1,024 of a root list.
const VARS: usize = 4100;

const ROOTS: usize = 1030;

// The number of the two bytes at a position of a case's head, at most `most`.
fn cut(head: &[u8; 27], at: usize, most: usize) -> usize
    requires { at + 2 ≤ 27 }
    ensures { result ≤ most }
{
    (replay::two(head, at) as usize).min(most)
}

// What is found before the header is read: lists that are too short, then what the case says, then the length of the input.
// Stays: a number, since `DumpHeader::load` takes any that was found before, and a case says any.
fn found_before(vars: &[usize], roots: &[usize], found: u8, f: &[u8]) -> u8
    ensures may_read { MayRead limits result f.now }
    ensures roots_value { result ≡ 0 → lists_fault vars.now roots.now ≡ 0 }
{
    match stages::lengths_fault(vars, roots) {
        0 => stages::length_fault(found, f.len()),
        short => short,
    }
}

// What is left of the stored answer after that of the call and the lists that it leaves; none where these are others.
// Stays: what was found is a number, as above; the lists are those of `DumpHeader::load`.
fn left_of<'a>(
    f: &[u8],
    found: u8,
    stored: &'a [u8],
    ids: &mut [u32],
    order: &mut [u32],
    permids: &mut [u32],
    auxids: &mut [u32],
    names: &mut [u32],
    lens: &mut [u32],
    roots: &mut [Edge],
    rootnames: &mut [u32],
    rootlens: &mut [u32],
) -> Option<&'a [u8]> {
    let before = found_before(
        &[
            ids.len(),
            order.len(),
            permids.len(),
            auxids.len(),
            names.len(),
            lens.len(),
        ],
        &[roots.len(), rootnames.len(), rootlens.len()],
        found,
        f,
    );
    let loaded = DumpHeader::load(
        f, before, ids, order, permids, auxids, names, lens, roots, rootnames, rootlens,
    );
    let mut left = answer::after_loaded(stored, loaded)?;
    for list in [&*ids, &*order, &*permids, &*auxids, &*names, &*lens] {
        left = answer::after_list(left, list, u64::from)?;
    }
    left = answer::after_list(left, roots, |e| u64::from(edges::pattern(e)))?;
    left = answer::after_list(left, rootnames, u64::from)?;
    answer::after_list(left, rootlens, u64::from)
}

// The same on lists of the lengths that a case's head has.
pub fn left<'a>(head: &[u8; 27], f: &[u8], stored: &'a [u8]) -> Option<&'a [u8]> {
    let mut ids = [FILL; VARS];
    let mut order = [FILL; VARS];
    let mut permids = [FILL; VARS];
    let mut auxids = [FILL; VARS];
    let mut names = [FILL; VARS];
    let mut lens = [FILL; VARS];
    let mut roots = [EDGE_FILL; ROOTS];
    let mut rootnames = [FILL; ROOTS];
    let mut rootlens = [FILL; ROOTS];
    left_of(
        f,
        head[0],
        stored,
        &mut ids[..cut(head, 1, VARS)],
        &mut order[..cut(head, 3, VARS)],
        &mut permids[..cut(head, 5, VARS)],
        &mut auxids[..cut(head, 7, VARS)],
        &mut names[..cut(head, 9, VARS)],
        &mut lens[..cut(head, 11, VARS)],
        &mut roots[..cut(head, 13, ROOTS)],
        &mut rootnames[..cut(head, 15, ROOTS)],
        &mut rootlens[..cut(head, 17, ROOTS)],
    )
}
