// An index of the nodes of a store (in the field's words a unique table): finding a node by its level, then and else takes a few steps,
// whatever the nodes are. Under each head stands a tree whose nodes are those of the store; a search goes down by the bits of its key, of
// which there are 64.
#![tactic(auto)]

ghost use Rattle.std.specs.Prelude.{◌≡◌, true, ◌+◌, ◌*◌, ◌^◌, ◌≤◌, ◌<◌, nat_abs, length, replicate};
ghost use Rattle.edges.specs.Width.{edge_limit};
ghost use Rattle.store.specs.Held.{held};
ghost use Rattle.store.specs.Keeps.{Decides};
ghost use Rattle.store.specs.Make.{holds};
ghost use Rattle.unique_table.specs.Index.{width_for, key_part, node_key, mix_of, head_entry, Indexed, Sought, AllAlone};

use edges::{Edge, Index};
use store::StoreRef;

// So many entries of work for each number from 0 to n are enough for the index of n nodes: with more it would not be faster.
pub const ENTRIES: usize = 6;

// An index with up to so many heads is narrow: it lies in the cache of the machine, and its heads are spread over it.
const NARROW: usize = 65536;

// How many heads the index of n nodes has in work of this length, beside two entries for each number from 0 to n: what is left, up to four for
// each of them, or 0 where less than one for each is. With more heads fewer nodes meet at one.
pub fn width_for(n: Index, len: usize) -> usize
    ensures { result ≡ width_for n len }
{
    let numbers = n as usize + 1;
    if len < 3 * numbers {
        return 0;
    }
    if len < ENTRIES * numbers {
        return len - 2 * numbers;
    }
    4 * numbers
}

// What of an edge stands in a key: 24 bits, which tell the edges of up to 8,388,607 nodes apart.
fn key_part(e: Edge) -> u64
    ensures { result ≡ key_part e }
{
    edges::pattern(e) as u64 % 16777216
}

// The bits of a level, a then and an else.
#[tactic(auto, unfolding(crate::specs::Index::node_key))]
fn key(l: u16, t: Edge, e: Edge) -> u64
    ensures { result ≡ node_key l t e }
{
    key_part(e) + 16777216 * key_part(t) + 281474976710656 * l as u64
}

// A mix of them, of 30 bits. The numbers that they are multiplied by are odd and have no pattern, and of the sum's lower 32 bits the upper 30 count,
// so that nodes that differ little get mixes far apart, small numbers too.
#[tactic(auto, unfolding(crate::specs::Index::mix_of))]
fn mix(l: u16, t: Edge, e: Edge) -> u64
    ensures { result ≡ mix_of l t e }
{
    let mixed = l as u64 * 2654435769 + key_part(t) * 1315298017 + key_part(e) * 628009085;
    mixed % 4294967296 / 4
}

// The numbers of both children, together.
fn children(t: Edge, e: Edge) -> usize
    ensures { (result ≡ nat_abs t + nat_abs e) × (result ≤ 2 ^ 33) }
{
    edges::magnitude(t) as usize + edges::magnitude(e) as usize
}

// The head for them. In a wide index nodes whose children are near have heads that are near, some thousand entries apart: nodes that are made one
// after the other mostly are such, and a step to a head far off waits for the memory.
fn head(width: usize, l: u16, t: Edge, e: Edge) -> usize
    requires { (1 ≤ width) × (width ≤ 2 ^ 34) }
    ensures { result ≡ head_entry width l t e }
{
    let part = mix(l, t, e);
    if width <= NARROW {
        return (part * width as u64 / 1073741824) as usize;
    }
    (2 * children(t, e) + (part / 1048576) as usize) % width
}

// Does node n have this level, then and else? That is a matter of three lists only.
pub fn holds_at(store: &StoreRef, l: u16, t: Edge, e: Edge, n: Index) -> bool
    requires { (1 ≤ n) × ((n ≤ length store.now.level.now) × ((n ≤ length store.now.then.now) × (n ≤ length store.now.els.now))) }
    ensures { result ≡ holds (held store.now) l t e n }
{
    let i = (n - 1) as usize;
    store.level[i] == l && edges::same(store.then[i], t) && edges::same(store.els[i], e)
}

// The entry of the node that has this level, then and else, or the empty entry where such a node belongs. `count` says how many nodes the
// index knows: fewer than the store has while it is built.
pub fn seek(
    index: &[Index],
    width: usize,
    count: Index,
    store: &StoreRef,
    l: u16,
    t: Edge,
    e: Edge,
) -> usize
    requires indexed { Indexed width (held store.now) count index.now }
    requires count_in_bounds { (count ≤ length store.now.level.now) × ((count ≤ length store.now.then.now) × (count ≤ length store.now.els.now)) }
    ensures { Sought width (held store.now) count index.now l t e result }
{
    let mut k = key(l, t, e);
    let mut at = head(width, l, t, e);
    let mut n = index[at];
    while n != 0 {
        if holds_at(store, l, t, e, n) {
            return at;
        }
        at = width + 2 * n as usize + (k % 2) as usize;
        k = k / 2;
        n = index[at];
    }
    at
}

// Are no two of the store's nodes alike? Each is sought among those before it, and put where its search ended; so the index is that of all
// nodes where the answer is yes.
pub fn distinct(index: &mut [Index], width: usize, store: &StoreRef) -> bool
    requires index_value { index.old ≡ replicate (length index.old) 0 }
    requires le_width { (1 ≤ width) × (width ≤ 2 ^ 34) × (width + 2 * store.now.count + 2 ≤ length index.old) }
    requires le_count { (1 ≤ store.now.count) × (store.now.count < edge_limit) }
    requires count_in_bounds { (store.now.count ≤ length store.now.level.now)
        × ((store.now.count ≤ length store.now.then.now) × (store.now.count ≤ length store.now.els.now)) }
    ensures decides { Decides result (AllAlone (held store.now) store.now.count) }
    ensures indexed { result ≡ true → Indexed width (held store.now) store.now.count index.new }
{
    for n in 2..=store.count {
        let i = (n - 1) as usize;
        let l = store.level[i];
        let t = store.then[i];
        let e = store.els[i];
        let at = seek(index, width, n - 1, store, l, t, e);
        if index[at] != 0 {
            return false;
        }
        index[at] = n;
    }
    true
}
