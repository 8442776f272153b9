// What an export refuses, in document 01's order.
#![tactic(auto)]

ghost use Rattle.std.specs.Prelude.{◌≡◌, true, ◌&&◌, leb, replicate};
ghost use Rattle.codes.specs.Limits.{var_limit};
ghost use Rattle.codes.specs.Lent.{borrowed, seen};
ghost use Rattle.header_values.specs.Kinds.{of_place};
ghost use Rattle.export_names.specs.Names.{fit_place, name_list_fits};
ghost use Rattle.export_size.specs.Size.{export_size};
ghost use Rattle.exported.specs.Export.{roots_fit};
ghost use Rattle.codes.specs.Refusals.{fault_of};
ghost use Rattle.store.specs.Held.{held};
ghost use Rattle.export_faults.specs.Promise.{FaultPromise};

use codes::limits;
use codes::refusal::Refusal;
use edges::{Edge, Index};
use read_text::Place;
use store::StoreRef;

// Are the roots edges of a store with this count, and not too many?
fn roots_fit(count: Index, roots: &[Edge]) -> bool
    ensures { result ≡ roots_fit count roots.now }
{
    if limits::ROOT_LIMIT < roots.len() {
        return false;
    }
    for root in roots {
        if !evaluation::is_root(count, *root) {
            return false;
        }
    }
    true
}

// Are the marks and the output long enough?
fn long_enough(
    levels: u16,
    count: Index,
    roots: usize,
    lens: &[u32],
    rootlens: &[u32],
    dd: Place,
    slots: usize,
    numbers: usize,
    out: usize,
) -> bool
    ensures { result ≡ leb count slots && leb count numbers && leb (export_size count levels roots lens.now rootlens.now dd.len) out }
{
    if slots < count as usize {
        return false;
    }
    if numbers < count as usize {
        return false;
    }
    export_size::size_fits(count, levels, roots, lens, rootlens, dd.len, out)
}

// Are all names fit?
fn names_fit(
    levels: u16,
    roots: usize,
    bytes: &[u8],
    starts: &[u32],
    lens: &[u32],
    rootstarts: &[u32],
    rootlens: &[u32],
    dd: Place,
) -> bool
    ensures { result ≡ name_list_fits levels bytes.now starts.now lens.now
        && name_list_fits roots bytes.now rootstarts.now rootlens.now && fit_place true bytes.now (of_place dd) }
{
    if !export_names::list_fits(levels as usize, bytes, starts, lens) {
        return false;
    }
    if !export_names::list_fits(roots, bytes, rootstarts, rootlens) {
        return false;
    }
    export_names::diagram_fits(bytes, dd.start, dd.len)
}

// The refusal of an export; where there is none, `vars`, a list of zeros, is filled with each level's variable, counted from 1. `work` is for
// the check of the store, and isn't cleared after it.
pub fn export_fault(
    store: &StoreRef,
    roots: &[Edge],
    order: &[u16],
    bytes: &[u8],
    starts: &[u32],
    lens: &[u32],
    rootstarts: &[u32],
    rootlens: &[u32],
    dd: Place,
    slots: usize,
    numbers: usize,
    out: usize,
    vars: &mut [u16],
    work: &mut [Index],
) -> Result<(), Refusal>
    requires { vars.old ≡ replicate var_limit 0 }
    ensures { FaultPromise (held store.now) (seen roots) (seen order) (seen bytes) (seen starts) (seen lens) (seen rootstarts) (seen rootlens) dd
        slots numbers out (borrowed vars) (fault_of result) }
{
    let levels = store.levels;
    let count = store.count;
    if !long_enough(
        levels,
        count,
        roots.len(),
        lens,
        rootlens,
        dd,
        slots,
        numbers,
        out,
    ) {
        return Err(Refusal::TooShort);
    }
    if !rules::keeps_rules(store, count, work) {
        return Err(Refusal::BrokenStore);
    }
    if !roots_fit(count, roots) {
        return Err(Refusal::BadRootOrSetting);
    }
    if !variable_order::is_order(levels, order, vars) {
        return Err(Refusal::BadOrder);
    }
    if !names_fit(
        levels,
        roots.len(),
        bytes,
        starts,
        lens,
        rootstarts,
        rootlens,
        dd,
    ) {
        return Err(Refusal::BadName);
    }
    Ok(())
}
