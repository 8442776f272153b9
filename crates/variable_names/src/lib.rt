// The names of variables: whether the lists agree, and which name each variable has.
#![tactic(auto)]

ghost use Rattle.std.specs.Prelude.{◌≡◌, map, ◌≤◌, length, get_or, take};
ghost use Rattle.codes.specs.Limits.{var_limit};
ghost use Rattle.codes.specs.Lent.{laid, borrowed, seen};
ghost use Rattle.read_text.specs.Text.{place};
ghost use Rattle.seats.specs.Seats.{Below};
ghost use Rattle.variable_names.specs.Names.{are_same_bytes, same_name, entry_at};
ghost use Rattle.variable_names.specs.Promises.{SameNamesPromise, FreePromise, OrderedSeatsPromise, SuppSeatsPromise};

use seats::entry;

// The byte at a position, 0 beyond the end.
fn byte(f: &[u8], at: usize) -> u8
    ensures { result ≡ get_or f.now at 0 }
{
    f.get(at).copied().unwrap_or(0)
}

// Whether the `n` bytes from `a` on are those from `b` on.
fn same_bytes(f: &[u8], a: u32, b: u32, n: u32) -> bool
    ensures { result ≡ are_same_bytes f.now a b n }
{
    for i in 0..n as usize {
        if byte(f, a as usize + i) != byte(f, b as usize + i) {
            return false;
        }
    }
    true
}

// Whether two places hold like names.
pub fn same_name(f: &[u8], start: u32, len: u32, start2: u32, len2: u32) -> bool
    ensures { result ≡ same_name f.now (place start len) (place start2 len2) }
{
    len == len2 && same_bytes(f, start, start2, len)
}

// Whether two lists of names, each taken at the positions of its index, are alike.
pub fn same_names(
    f: &[u8],
    index: &[u32],
    starts: &[u32],
    lens: &[u32],
    index2: &[u32],
    starts2: &[u32],
    lens2: &[u32],
) -> bool
    requires index2_len { length index2.now ≡ length index.now }
    requires lens_len { length lens.now ≡ length starts.now }
    requires lens2_len { length lens2.now ≡ length starts2.now }
    ensures { SameNamesPromise (seen f) (seen index) (seen starts) (seen lens) (seen index2) (seen starts2) (seen lens2) result }
{
    for (i, a) in index.iter().enumerate() {
        let a = *a as usize;
        let b = index2[i] as usize;
        if !same_name(
            f,
            entry(starts, a),
            entry(lens, a),
            entry(starts2, b),
            entry(lens2, b),
        ) {
            return false;
        }
    }
    true
}

// The positions that are no permids, counted from 1, over the front of a list. `seats` is scratch, an entry for each variable.
fn free_seats(permids: &[u32], seats: &mut [u32], dst: &mut [u32])
    requires { (length seats.old ≤ var_limit) × (length permids.now ≤ var_limit) }
    ensures { FreePromise (seen permids) (borrowed seats) (borrowed dst) }
{
    seats.fill(0);
    seats::seats(permids, seats);
    let mut n = 0;
    for (p, taken) in seats.iter().enumerate() {
        if *taken == 0 {
            read_lists::put(dst, n, p as u32 + 1);
            n += 1;
        }
    }
}

// Where each variable's name stands in `.orderedvarnames`, counted from 1, over the front of a list. `seats` and `free` are scratch, an
// entry for each variable.
pub fn ordered_seats(
    ids: &[u32],
    permids: &[u32],
    seats: &mut [u32],
    free: &mut [u32],
    dst: &mut [u32],
)
    requires seats_len_bound { (length seats.old ≤ var_limit) × (length ids.now ≤ var_limit) × (length permids.now ≤ var_limit) }
    requires below { Below var_limit permids.now × (length free.old ≡ length seats.old) }
    ensures { OrderedSeatsPromise (seen ids) (seen permids) (borrowed seats) (borrowed dst) }
{
    free.fill(0);
    free_seats(permids, seats, free);
    seats.fill(0);
    seats::seats(ids, seats);
    let mut n = 0;
    for (v, seat) in seats.iter().enumerate() {
        if *seat == 0 {
            read_lists::put(dst, v, entry(free, n));
            n += 1;
        } else {
            read_lists::put(dst, v, entry(permids, *seat as usize - 1) + 1);
        }
    }
}

// Where each variable's name stands in `.suppvarnames`, counted from 1, 0 where it has none, over the front of a list. `seats` is
// scratch, an entry for each variable.
pub fn supp_seats(ids: &[u32], seats: &mut [u32], dst: &mut [u32])
    requires { (length seats.old ≤ var_limit) × (length ids.now ≤ var_limit) }
    ensures { SuppSeatsPromise (seen ids) (borrowed seats) (borrowed dst) }
{
    seats.fill(0);
    seats::seats(ids, seats);
    for (v, seat) in seats.iter().enumerate() {
        read_lists::put(dst, v, *seat);
    }
}

// The entries at the seats of a list, 0 where there is no seat, over the front of another.
pub fn gather(seats: &[u32], from: &[u32], dst: &mut [u32])
    ensures { dst.new ≡ laid (map (entry_at from.now) seats.now) dst.old }
{
    for (i, seat) in seats.iter().enumerate() {
        read_lists::put(dst, i, entry_at(from, *seat));
    }
}

// The entry at a seat of a list, 0 where there is no seat.
fn entry_at(from: &[u32], seat: u32) -> u32
    ensures { result ≡ entry_at from.now seat }
{
    if seat == 0 {
        return 0;
    }
    entry(from, seat as usize - 1)
}

// The first `n` entries of a list are seats of another: each is replaced by what stands there, 0 where there is no seat.
pub fn gather_own(from: &[u32], n: usize, dst: &mut [u32])
    requires { n ≤ length dst.old }
    ensures { dst.new ≡ laid (map (entry_at from.now) (take n dst.old)) dst.old }
{
    for i in 0..n {
        dst[i] = entry_at(from, dst[i]);
    }
}
