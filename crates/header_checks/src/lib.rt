// The header as a whole: its checks in the order of document 01.
#![tactic(auto)]

ghost use Rattle.codes.specs.Lent.{borrowed, seen};
ghost use Rattle.std.specs.Prelude.{◌≡◌, ◌≤◌, ◌∷◌, length};
ghost use Rattle.codes.specs.Limits.{limits, var_limit};
ghost use Rattle.header_lines.specs.Sweep.{Table};
ghost use Rattle.header_values.specs.Values.{spans, nvars_in};
ghost use Rattle.codes.specs.Faults.{first_fault};
ghost use Rattle.codes.specs.Refusals.{fault_of};
ghost use Rattle.header_checks.specs.Whole.{count_fault, given_fault, number_faults, numbers_fault, support_faults, name_count_faults, root_faults};
ghost use Rattle.header_checks.specs.Whole.{IdsListed, NameCounts, LongAfter};
ghost use Rattle.header_checks.specs.Promises.{SupportPromise, WholePromise};

pub mod names;

use crate::names::name_fault;
use codes::limits;
use codes::refusal::{Fault, Refusal};
use header_keys::Key;

// A list has as many entries as it must.
fn count_fault(want: u64, n: usize) -> Result<(), Refusal>
    ensures { fault_of result ≡ count_fault want n }
{
    if n as u64 == want {
        return Ok(());
    }
    Err(Refusal::WrongCount)
}

// A list that is given has as many entries as it must.
fn given_fault(want: u64, n: usize) -> Result<(), Refusal>
    ensures { fault_of result ≡ given_fault want n }
{
    if n == 0 {
        return Ok(());
    }
    count_fault(want, n)
}

fn number_fault(nvars: u32, nnodes: u64, nsuppvars: u32) -> Result<(), Refusal>
    ensures { fault_of result ≡ first_fault (number_faults limits nvars nnodes nsuppvars) }
{
    if limits::VAR_LIMIT < nvars as usize {
        return Err(Refusal::OverLimit);
    }
    if (limits::NODE_LIMIT as u64) < nnodes {
        return Err(Refusal::OverLimit);
    }
    if nvars < nsuppvars {
        return Err(Refusal::OverNvars);
    }
    Ok(())
}

// The support variables, whose ids and permids were read before.
fn listed_fault(
    f: &[u8],
    starts: &[u32],
    ends: &[u32],
    ids: &[u32],
    permids: &[u32],
) -> Result<(), Refusal>
    requires table { Table f.now starts.now ends.now }
    requires ends_bound { nvars_in f.now (spans starts.now ends.now) ≤ var_limit }
    requires ids_listed { IdsListed f.now (spans starts.now ends.now) ids.now permids.now }
    ensures { fault_of result ≡ first_fault (support_faults f.now (spans starts.now ends.now)) }
{
    let want = header_values::number_in::<u32>(f, starts, ends, Key::Nsuppvars) as u64;
    count_fault(want, ids.len())?;
    count_fault(want, permids.len())?;
    let aux = header_values::read_u32s(f, starts, ends, Key::Auxids, &mut [0]);
    given_fault(want, aux)?;
    let nvars = header_values::number_in::<u32>(f, starts, ends, Key::Nvars);
    if !support::ids_fit(ids, nvars) {
        return Err(Refusal::BadIds);
    }
    if !support::permids_fit(permids, nvars) {
        return Err(Refusal::BadPermids);
    }
    Ok(())
}

// The support variables. Their ids and permids are read into lists that are long enough, and stay there.
fn support_fault(
    f: &[u8],
    starts: &[u32],
    ends: &[u32],
    ids: &mut [u32],
    permids: &mut [u32],
) -> Result<(), Refusal>
    requires table { Table f.now starts.now ends.now }
    requires ends_bound { nvars_in f.now (spans starts.now ends.now) ≤ var_limit }
    requires var_limit_in_bounds { (var_limit ≤ length ids.old) × (var_limit ≤ length permids.old) }
    ensures { SupportPromise (seen f) (seen starts) (seen ends) (borrowed ids) (borrowed permids) (fault_of result) }
{
    let n = header_values::u32s_in(f, starts, ends, Key::Ids, ids);
    let m = header_values::u32s_in(f, starts, ends, Key::Permids, permids);
    listed_fault(f, starts, ends, &ids[..n], &permids[..m])
}

// The lists of names have as many entries as they must.
pub fn name_count_fault(
    f: &[u8],
    starts: &[u32],
    ends: &[u32],
    ordered: usize,
    supp: usize,
    varnames: usize,
) -> Result<(), Refusal>
    requires table { Table f.now starts.now ends.now }
    requires name_counts { NameCounts f.now (spans starts.now ends.now) ordered supp varnames }
    ensures { fault_of result ≡ first_fault (name_count_faults f.now (spans starts.now ends.now)) }
{
    let nvars = header_values::number_in::<u32>(f, starts, ends, Key::Nvars) as u64;
    let nsuppvars = header_values::number_in::<u32>(f, starts, ends, Key::Nsuppvars) as u64;
    given_fault(nvars, ordered)?;
    given_fault(nsuppvars, supp)?;
    given_fault(nvars, varnames)
}

// The roots.
fn root_fault(f: &[u8], starts: &[u32], ends: &[u32]) -> Result<(), Refusal>
    requires { Table f.now starts.now ends.now }
    ensures { fault_of result ≡ first_fault (root_faults f.now (spans starts.now ends.now)) }
{
    let nroots = header_values::number_in::<u64>(f, starts, ends, Key::Nroots);
    let mut roots = [0i64; limits::ROOT_LIMIT];
    let n = header_values::roots_in(f, starts, ends, &mut roots);
    count_fault(nroots, n)?;
    let nnodes = header_values::number_in::<u64>(f, starts, ends, Key::Nnodes);
    file_roots::roots_fault(&roots[..n], nnodes)?;
    let names = header_values::count_names(f, starts, ends, Key::Rootnames, limits::ROOT_LIMIT);
    given_fault(nroots, names)
}

// The numbers.
fn numbers_fault(f: &[u8], starts: &[u32], ends: &[u32]) -> Result<(), Refusal>
    requires { Table f.now starts.now ends.now }
    ensures { fault_of result ≡ numbers_fault limits f.now (spans starts.now ends.now) }
{
    let nvars = header_values::number_in::<u32>(f, starts, ends, Key::Nvars);
    let nnodes = header_values::number_in::<u64>(f, starts, ends, Key::Nnodes);
    let nsuppvars = header_values::number_in::<u32>(f, starts, ends, Key::Nsuppvars);
    number_fault(nvars, nnodes, nsuppvars)
}

// The first refusal of the header as a whole, in the order of document 01, after what was found before, 0 for nothing. It has no line.
// Where there is none, `.ids` and `.permids` were read into their lists. The other lent lists are scratch: lists of names are read into
// them.
// Stays: `found` is any number, as `DumpHeader::load`, which is public, is given one.
pub fn whole_fault(
    f: &[u8],
    found: u8,
    starts: &[u32],
    ends: &[u32],
    ids: &mut [u32],
    permids: &mut [u32],
    order: &mut [u32],
    auxids: &mut [u32],
    names: &mut [u32],
    lens: &mut [u32],
) -> Result<(), Fault>
    requires table { Table f.now starts.now ends.now }
    requires long_after { LongAfter found ids.old permids.old order.old auxids.old names.old lens.old }
    ensures { WholePromise (seen f) found (seen starts) (seen ends) (borrowed ids) (borrowed permids) result }
{
    if found != 0 {
        return Err(Fault {
            number: found,
            line: 0,
        });
    }
    numbers_fault(f, starts, ends)?;
    support_fault(f, starts, ends, ids, permids)?;
    let n = header_values::number_in::<u32>(f, starts, ends, Key::Nsuppvars) as usize;
    name_fault(
        f,
        starts,
        ends,
        &ids[..n],
        &permids[..n],
        order,
        auxids,
        names,
        lens,
    )?;
    root_fault(f, starts, ends)?;
    Ok(())
}
