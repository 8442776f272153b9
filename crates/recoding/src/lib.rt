// A file read and written again as text, version 2.0: what the program `recode` does.

#![tactic(auto)]

ghost use Rattle.std.specs.Prelude.{◌≡◌, cond, length, replicate};
ghost use Rattle.codes.specs.Lent.{laid, borrowed, seen};
ghost use Rattle.codes.specs.Limits.{limits};
ghost use Rattle.store.specs.Held.{held};
ghost use Rattle.recode_levels.specs.Levels.{JudgedLevels};
ghost use Rattle.recoding.specs.Recode.{head_read, all_there, recode_of};
ghost use Rattle.recoding.specs.Kinds.{of_recoded, plan_by, planned_list};
ghost use Rattle.recoding.specs.Promises.{WriteBackPromise, ReloadPromise};

use codes::limits;
use codes::refusal::{Fault, Refusal};
use edges::{Edge, Index};
use exporter::ExportSettings;
use header::DumpHeader;
use store::{StoreMut, StoreRef};

// The longest input, in bytes.
pub const INPUT_MOST: usize = 65536;

// How many slots the store has, how many entries the scratch and the marks.
pub const SLOTS: usize = 4096;

// The length of work that is enough for the index of as many nodes.
const WORK: usize = 3 * (SLOTS + 1);

// Reads the header for the level count and the level list, which is laid over the front of a list, and counts the entries of the list.
fn plan_levels(f: &[u8], list: &mut [u16]) -> Result<(u16, usize), Fault>
    ensures value { result ≡ plan_by (head_read limits f.now) (head_read limits f.now).answer }
    ensures list_after { list.new ≡ laid (planned_list (head_read limits f.now)) list.old }
{
    let mut ids = [0u32; limits::VAR_LIMIT];
    let mut order = [0u32; limits::VAR_LIMIT];
    let mut permids = [0u32; limits::VAR_LIMIT];
    let mut auxids = [0u32; limits::VAR_LIMIT];
    let mut names = [0u32; limits::VAR_LIMIT];
    let mut lens = [0u32; limits::VAR_LIMIT];
    let mut roots = [0 as Edge; limits::ROOT_LIMIT];
    let mut rootnames = [0u32; limits::ROOT_LIMIT];
    let mut rootlens = [0u32; limits::ROOT_LIMIT];
    let found = stages::length_fault(0, f.len());
    let h = match DumpHeader::load(
        f,
        found,
        &mut ids,
        &mut order,
        &mut permids,
        &mut auxids,
        &mut names,
        &mut lens,
        &mut roots,
        &mut rootnames,
        &mut rootlens,
    ) {
        Ok(h) => h,
        Err(fault) => return Err(fault),
    };
    let n = recode_levels::level_list(&permids[..h.nsuppvars as usize], h.nvars, list);
    Ok((h.nvars as u16, n))
}

// Is every name there?
fn all_there(lens: &[u32]) -> bool
    ensures { result ≡ all_there lens.now }
{
    lens.iter().all(|len| 0 < *len)
}

// How many of some names are passed on: all, or none.
fn passed_on(lens: &[u32]) -> usize
    ensures { result ≡ cond (all_there lens.now) (length lens.now) 0 }
{
    if all_there(lens) {
        return lens.len();
    }
    0
}

// Exports what was loaded, text and version 2.0. The lists have an entry for each root or variable.
fn write_back(
    f: &[u8],
    h: DumpHeader,
    store: &StoreRef,
    roots: &[Edge],
    ids: &[u32],
    permids: &[u32],
    names: &[u32],
    lens: &[u32],
    rootnames: &[u32],
    rootlens: &[u32],
    out: &mut [u8],
) -> Result<usize, Fault>
    requires judged_levels { JudgedLevels h.nvars ids.now permids.now }
    requires names_len { (length names.now ≡ length lens.now) × (length rootnames.now ≡ length rootlens.now) }
    ensures { WriteBackPromise (seen f) h (held store.now) (seen roots) (seen ids) (seen permids) (seen names) (seen lens) (seen rootnames)
        (seen rootlens) (borrowed out) result }
{
    let dd = h.dd;
    let settings = ExportSettings::default()
        .ascii()
        .diagram_name(dd.start, dd.len);
    let mut order = [0u16; limits::VAR_LIMIT];
    recode_levels::variable_levels(ids, permids, h.nvars, &mut order);
    let named = passed_on(lens);
    let rooted = passed_on(rootlens);
    let mut slots = [0 as Index; SLOTS];
    let mut numbers = [0 as Index; SLOTS];
    let mut work = [0 as Index; WORK];
    let n = dddmp::export(
        settings,
        store,
        roots,
        &order[..h.nvars as usize],
        f,
        &names[..named],
        &lens[..named],
        &rootnames[..rooted],
        &rootlens[..rooted],
        &mut slots,
        &mut numbers,
        out,
        &mut work,
    )?;
    Ok(n)
}

// Loads a file at some levels of an empty store and exports it again. The output holds zeros before, and so after a refusal.
fn reload(f: &[u8], list: &[u16], levels: u16, out: &mut [u8]) -> Result<usize, Fault>
    requires { out.old ≡ replicate (length out.old) 0 }
    ensures { ReloadPromise (seen f) (seen list) levels (borrowed out) result }
{
    let mut level = [0u16; SLOTS];
    let mut then = [0 as Edge; SLOTS];
    let mut els = [0 as Edge; SLOTS];
    let mut next = [0 as Index; SLOTS];
    let mut heads = [0 as Index; 256];
    let mut ids = [0u32; limits::VAR_LIMIT];
    let mut order = [0u32; limits::VAR_LIMIT];
    let mut permids = [0u32; limits::VAR_LIMIT];
    let mut auxids = [0u32; limits::VAR_LIMIT];
    let mut names = [0u32; limits::VAR_LIMIT];
    let mut lens = [0u32; limits::VAR_LIMIT];
    let mut roots = [0 as Edge; limits::ROOT_LIMIT];
    let mut rootnames = [0u32; limits::ROOT_LIMIT];
    let mut rootlens = [0u32; limits::ROOT_LIMIT];
    let mut edges = [0 as Edge; SLOTS];
    let mut seats = [0u16; SLOTS];
    let mut work = [0 as Index; WORK];
    let mut store = StoreMut {
        levels,
        count: 1,
        level: &mut level,
        then: &mut then,
        els: &mut els,
        next: &mut next,
        heads: &mut heads,
    };
    let h = dddmp::load(
        f,
        list,
        &mut store,
        &mut ids,
        &mut order,
        &mut permids,
        &mut auxids,
        &mut names,
        &mut lens,
        &mut roots,
        &mut rootnames,
        &mut rootlens,
        &mut edges,
        &mut seats,
        &mut work,
    )?;
    let now = store.as_ref();
    let nroots = h.nroots as usize;
    let nvars = h.nvars as usize;
    let nsuppvars = h.nsuppvars as usize;
    write_back(
        f,
        h,
        &now,
        &roots[..nroots],
        &ids[..nsuppvars],
        &permids[..nsuppvars],
        &names[..nvars],
        &lens[..nvars],
        &rootnames[..nroots],
        &rootlens[..nroots],
        out,
    )
}

// Reads a file and writes it again, as text of version 2.0.
pub fn recode(f: &[u8], out: &mut [u8]) -> Result<usize, Fault>
    ensures result_value { of_recoded result ≡ (recode_of limits f.now (length out.old)).answer }
    ensures out_after { out.new ≡ (recode_of limits f.now (length out.old)).out }
{
    out.fill(0);
    if INPUT_MOST < f.len() {
        return Err(Refusal::OverLimit.at(0));
    }
    let mut list = [0u16; limits::VAR_LIMIT];
    let (levels, n) = plan_levels(f, &mut list)?;
    reload(f, &list[..n], levels, out)
}
