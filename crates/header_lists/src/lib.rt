// The lists of a header, each read from the place of its key's last value into the lent one. The rest of a lent list is zeros; where the
// table is of zeros, as on a refusal, all of it.
#![tactic(auto)]

ghost use Rattle.codes.specs.Lent.{borrowed, seen};
ghost use Rattle.std.specs.Prelude.{◌≤◌, length};
ghost use Rattle.header_keys.specs.declared.Key.TheVariants as Key;
ghost use Rattle.header_lines.specs.Sweep.{Table};
ghost use Rattle.header_values.specs.Values.{spans, KnownKey, nvars_in};
ghost use Rattle.header_checks.specs.Whole.{IdsListed};
ghost use Rattle.header_lists.specs.Settled.{Settled, HeldList, NamesRoom, ListsRoom};
ghost use Rattle.header_lists.specs.Promises.{FillOrderPromise, SeatNamesPromise};
ghost use Rattle.header_lists.specs.Promises.{GatherPromise, FillNamesPromise, FillListsPromise, FillRootsPromise};

use codes::limits::{ROOT_LIMIT, VAR_LIMIT};
use edges::Edge;
use header_keys::Key;

// The support order. `seats` is scratch.
fn fill_order(
    f: &[u8],
    starts: &[u32],
    ends: &[u32],
    ids: &[u32],
    permids: &[u32],
    seats: &mut [u32],
    dst: &mut [u32],
)
    requires table { Table f.now starts.now ends.now }
    requires ids_listed { IdsListed f.now (spans starts.now ends.now) ids.now permids.now }
    requires ends_in_bounds { nvars_in f.now (spans starts.now ends.now) ≤ length seats.old }
    ensures { FillOrderPromise (seen f) (seen starts) (seen ends) (borrowed dst) }
{
    let n = header_values::number_in::<u32>(f, starts, ends, Key::Nvars) as usize;
    dst.fill(0);
    support::arrange(ids, permids, &mut seats[..n], dst);
}

// Where each variable's name stands in `.orderedvarnames`, where that is given, else in `.suppvarnames`, counted from 1, over the front of
// a list; which of the two is answered. `seats` and `free` are scratch.
fn seat_names(
    f: &[u8],
    starts: &[u32],
    ends: &[u32],
    ids: &[u32],
    permids: &[u32],
    seats: &mut [u32],
    free: &mut [u32],
    dst: &mut [u32],
) -> Key
    requires table { Table f.now starts.now ends.now × Settled f.now (spans starts.now ends.now) }
    requires ids_listed { IdsListed f.now (spans starts.now ends.now) ids.now permids.now }
    requires ends_in_bounds { nvars_in f.now (spans starts.now ends.now) ≤ length seats.old }
    requires ends_in_bounds_2 { nvars_in f.now (spans starts.now ends.now) ≤ length free.old }
    ensures { SeatNamesPromise (seen f) (seen starts) (seen ends) (borrowed dst) result }
{
    let n = header_values::number_in::<u32>(f, starts, ends, Key::Nvars) as usize;
    if header_values::count_names(f, starts, ends, Key::Orderedvarnames, VAR_LIMIT) != 0 {
        variable_names::ordered_seats(ids, permids, &mut seats[..n], &mut free[..n], dst);
        return Key::Orderedvarnames;
    }
    variable_names::supp_seats(ids, &mut seats[..n], dst);
    Key::Suppvarnames
}

// The names at the first `count` entries of `lens`, which are seats of a key's list: where each starts, and in place of its seat how long
// it is. `from` and `sizes` are scratch, into which the list is read.
fn gather_names(
    f: &[u8],
    starts: &[u32],
    ends: &[u32],
    key: Key,
    count: usize,
    from: &mut [u32],
    sizes: &mut [u32],
    names: &mut [u32],
    lens: &mut [u32],
)
    requires table { Table f.now starts.now ends.now × KnownKey key }
    requires names_room { NamesRoom f.now (spans starts.now ends.now) key from.old sizes.old }
    requires count_in_bounds { count ≤ length lens.old }
    ensures { GatherPromise (seen f) (seen starts) (seen ends) key count (borrowed names) (borrowed lens) }
{
    let n = header_values::names_over(f, starts, ends, key, VAR_LIMIT, from, sizes);
    variable_names::gather(&lens[..count], &from[..n], names);
    variable_names::gather_own(&sizes[..n], count, lens);
}

// The names of the variables: `.varnames` first, else `.orderedvarnames`, else `.suppvarnames`. `from` and `sizes` are scratch.
fn fill_names(
    f: &[u8],
    starts: &[u32],
    ends: &[u32],
    ids: &[u32],
    permids: &[u32],
    from: &mut [u32],
    sizes: &mut [u32],
    names: &mut [u32],
    lens: &mut [u32],
)
    requires table { Table f.now starts.now ends.now × Settled f.now (spans starts.now ends.now) }
    requires ids_listed { IdsListed f.now (spans starts.now ends.now) ids.now permids.now }
    requires lists_room { ListsRoom f.now (spans starts.now ends.now) from.old sizes.old lens.old }
    ensures { FillNamesPromise (seen f) (seen starts) (seen ends) (borrowed names) (borrowed lens) }
{
    if header_values::names_in(f, starts, ends, Key::Varnames, VAR_LIMIT, names, lens) != 0 {
        return;
    }
    let key = seat_names(f, starts, ends, ids, permids, from, sizes, lens);
    let count = header_values::number_in::<u32>(f, starts, ends, Key::Nvars) as usize;
    gather_names(f, starts, ends, key, count, from, sizes, names, lens);
}

// The lists of the variables, once `.ids` and `.permids` were read into theirs.
pub fn fill_lists(
    f: &[u8],
    starts: &[u32],
    ends: &[u32],
    ids: &[u32],
    permids: &[u32],
    order: &mut [u32],
    auxids: &mut [u32],
    names: &mut [u32],
    lens: &mut [u32],
)
    requires table { Table f.now starts.now ends.now × Settled f.now (spans starts.now ends.now) }
    requires held_list { HeldList f.now (spans starts.now ends.now) Key.Ids ids.now }
    requires held_list_2 { HeldList f.now (spans starts.now ends.now) Key.Permids permids.now }
    requires lists_room { ListsRoom f.now (spans starts.now ends.now) order.old auxids.old lens.old }
    ensures { FillListsPromise (seen f) (seen starts) (seen ends) (borrowed order) (borrowed auxids) (borrowed names) (borrowed lens) }
{
    let n = header_values::number_in::<u32>(f, starts, ends, Key::Nsuppvars) as usize;
    fill_names(
        f,
        starts,
        ends,
        &ids[..n],
        &permids[..n],
        order,
        auxids,
        names,
        lens,
    );
    fill_order(f, starts, ends, &ids[..n], &permids[..n], auxids, order);
    header_values::u32s_in(f, starts, ends, Key::Auxids, auxids);
}

// The roots as edges.
pub fn fill_roots(f: &[u8], starts: &[u32], ends: &[u32], dst: &mut [Edge])
    requires { Table f.now starts.now ends.now }
    ensures { FillRootsPromise (seen f) (seen starts) (seen ends) (borrowed dst) }
{
    let mut roots = [0i64; ROOT_LIMIT];
    let n = header_values::roots_in(f, starts, ends, &mut roots);
    dst.fill(0);
    file_roots::edges_of(&roots[..n], dst);
}
