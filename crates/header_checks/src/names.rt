// Whether the lists of names agree about the support variables.
ghost use Rattle.codes.specs.Lent.{seen};
ghost use Rattle.std.specs.Prelude.{◌≡◌, length};
ghost use Rattle.codes.specs.Refusals.{fault_of};
ghost use Rattle.header_keys.specs.declared.Key.TheVariants as Key;
ghost use Rattle.header_lines.specs.Sweep.{Table};
ghost use Rattle.header_checks.specs.Promises.{InOrderPromise, AgreePromise, SuppAgreesPromise};
ghost use Rattle.header_checks.specs.Promises.{GivenNamesPromise, VarnamesPromise, NameFaultPromise};
ghost use Rattle.header_checks.specs.Whole.{IdsRead, NamesHeld, LongNames};
ghost use Rattle.header_values.specs.Values.{spans};

use codes::limits;
use codes::refusal::Refusal;
use header_keys::Key;
use seats::entry;

// Whether the names of a list, taken at the positions of an index, are those of another in their order.
fn same_in_order(
    f: &[u8],
    index: &[u32],
    starts: &[u32],
    lens: &[u32],
    starts2: &[u32],
    lens2: &[u32],
) -> bool
    requires lens_len { length lens.now ≡ length starts.now }
    requires lens2_len { length lens2.now ≡ length starts2.now }
    ensures { InOrderPromise (seen f) (seen index) (seen starts) (seen lens) (seen starts2) (seen lens2) result }
{
    for (i, a) in index.iter().enumerate() {
        let a = *a as usize;
        if !variable_names::same_name(
            f,
            entry(starts, a),
            entry(lens, a),
            entry(starts2, i),
            entry(lens2, i),
        ) {
            return false;
        }
    }
    true
}

// Whether two lists of names, each taken at the positions of its index, agree. One that isn't given says nothing.
fn agree(
    f: &[u8],
    index: &[u32],
    starts: &[u32],
    lens: &[u32],
    index2: &[u32],
    starts2: &[u32],
    lens2: &[u32],
) -> bool
    requires index2_len { length index2.now ≡ length index.now }
    requires lens_len { length lens.now ≡ length starts.now }
    requires lens2_len { length lens2.now ≡ length starts2.now }
    ensures { AgreePromise (seen f) (seen index) (seen starts) (seen lens) (seen index2) (seen starts2) (seen lens2) result }
{
    if starts.is_empty() || starts2.is_empty() {
        return true;
    }
    variable_names::same_names(f, index, starts, lens, index2, starts2, lens2)
}

// Whether a list of names, taken at the positions of its index, and `.suppvarnames` in their order agree.
fn supp_agrees(
    f: &[u8],
    index: &[u32],
    starts: &[u32],
    lens: &[u32],
    starts2: &[u32],
    lens2: &[u32],
) -> bool
    requires lens_len { length lens.now ≡ length starts.now }
    requires lens2_len { length lens2.now ≡ length starts2.now }
    ensures { SuppAgreesPromise (seen f) (seen index) (seen starts) (seen lens) (seen starts2) (seen lens2) result }
{
    if starts.is_empty() || starts2.is_empty() {
        return true;
    }
    same_in_order(f, index, starts, lens, starts2, lens2)
}

// The lists of names that were read: whether they have as many entries as they must, and whether `.orderedvarnames` and `.suppvarnames`
// agree. Of `.varnames` only the number counts here.
fn given_names_fault(
    f: &[u8],
    starts: &[u32],
    ends: &[u32],
    permids: &[u32],
    names: &[u32],
    lens: &[u32],
    names2: &[u32],
    lens2: &[u32],
) -> Result<(), Refusal>
    requires table { Table f.now starts.now ends.now }
    requires names_held { NamesHeld f.now (spans starts.now ends.now) Key.Orderedvarnames names.now lens.now }
    requires names_held_2 { NamesHeld f.now (spans starts.now ends.now) Key.Suppvarnames names2.now lens2.now }
    ensures { GivenNamesPromise (seen f) (seen starts) (seen ends) (seen permids) (fault_of result) }
{
    let varnames = header_values::count_names(f, starts, ends, Key::Varnames, limits::VAR_LIMIT);
    crate::name_count_fault(f, starts, ends, names.len(), names2.len(), varnames)?;
    if supp_agrees(f, permids, names, lens, names2, lens2) {
        return Ok(());
    }
    Err(Refusal::UnlikeNames)
}

// The same of the file's lists, which are read into lent lists. These are scratch.
fn ordered_fault(
    f: &[u8],
    starts: &[u32],
    ends: &[u32],
    permids: &[u32],
    names: &mut [u32],
    lens: &mut [u32],
    names2: &mut [u32],
    lens2: &mut [u32],
) -> Result<(), Refusal>
    requires table { Table f.now starts.now ends.now }
    requires long_names { LongNames names.old lens.old names2.old lens2.old }
    ensures { GivenNamesPromise (seen f) (seen starts) (seen ends) (seen permids) (fault_of result) }
{
    let max = limits::VAR_LIMIT;
    let n = header_values::names_over(f, starts, ends, Key::Orderedvarnames, max, names, lens);
    let m = header_values::names_over(f, starts, ends, Key::Suppvarnames, max, names2, lens2);
    given_names_fault(
        f,
        starts,
        ends,
        permids,
        &names[..n],
        &lens[..n],
        &names2[..m],
        &lens2[..m],
    )
}

// Whether `.varnames` and the other two lists agree. The lent lists are scratch.
fn varnames_fault(
    f: &[u8],
    starts: &[u32],
    ends: &[u32],
    ids: &[u32],
    permids: &[u32],
    names: &mut [u32],
    lens: &mut [u32],
    names2: &mut [u32],
    lens2: &mut [u32],
) -> Result<(), Refusal>
    requires table { Table f.now starts.now ends.now }
    requires permids_len { length permids.now ≡ length ids.now }
    requires long_names { LongNames names.old lens.old names2.old lens2.old }
    ensures { VarnamesPromise (seen f) (seen starts) (seen ends) (seen ids) (seen permids) (fault_of result) }
{
    let max = limits::VAR_LIMIT;
    if header_values::count_names(f, starts, ends, Key::Varnames, max) == 0 {
        return Ok(());
    }
    let n = header_values::names_over(f, starts, ends, Key::Varnames, max, names, lens);
    let m = header_values::names_over(f, starts, ends, Key::Orderedvarnames, max, names2, lens2);
    let first = agree(
        f,
        ids,
        &names[..n],
        &lens[..n],
        permids,
        &names2[..m],
        &lens2[..m],
    );
    let k = header_values::names_over(f, starts, ends, Key::Suppvarnames, max, names2, lens2);
    let second = supp_agrees(f, ids, &names[..n], &lens[..n], &names2[..k], &lens2[..k]);
    if first && second {
        return Ok(());
    }
    Err(Refusal::UnlikeNames)
}

// The lists of names: how many entries they have, and whether they agree about the support variables. The lent lists are scratch.
pub fn name_fault(
    f: &[u8],
    starts: &[u32],
    ends: &[u32],
    ids: &[u32],
    permids: &[u32],
    names: &mut [u32],
    lens: &mut [u32],
    names2: &mut [u32],
    lens2: &mut [u32],
) -> Result<(), Refusal>
    requires table { Table f.now starts.now ends.now }
    requires ids_read { IdsRead f.now (spans starts.now ends.now) ids.now permids.now }
    requires long_names { LongNames names.old lens.old names2.old lens2.old }
    ensures { NameFaultPromise (seen f) (seen starts) (seen ends) (fault_of result) }
{
    ordered_fault(f, starts, ends, permids, names, lens, names2, lens2)?;
    varnames_fault(f, starts, ends, ids, permids, names2, lens2, names, lens)
}
