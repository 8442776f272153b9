// The header of a file: `DumpHeader::load`, in three phases. `header_lines` judges each line and keeps the place of each key's last value;
// `header_checks` checks the header as a whole, for which it reads `.ids` and `.permids` into their lent lists; `header_lists` reads each
// other list from its place into the lent one.
#![tactic(auto)]

ghost use Rattle.codes.specs.Lent.{borrowed, seen};
ghost use Rattle.std.specs.Prelude.{◌≡◌, replicate};
ghost use Rattle.codes.specs.Limits.{limits};
ghost use Rattle.header_lines.specs.Sweep.{Table, keys};
ghost use Rattle.header_values.specs.Values.{spans};
ghost use Rattle.header_lines.specs.Kinds.{of_swept};
ghost use Rattle.header_checks.specs.Whole.{LongAfter};
ghost use Rattle.header.specs.Kinds.{of_header, of_loaded};
ghost use Rattle.header.specs.Header.{header_in, found_in, MayRead};
ghost use Rattle.header.specs.Promises.{SweptPromise, settled_of, KeepPromise, LoadHeaderPromise};

use codes::refusal::Fault;
use codes::{VarInfo, limits};
use edges::Edge;
use header_keys::Key;
use read_text::Place;

// The numbers of a header: mode, varinfo, the place of the diagram's name, the counts, the position after `.nodes`' line and the number
// of lines.
#[derive(Clone, Copy)]
pub struct DumpHeader {
    pub ascii: bool,
    pub varinfo: VarInfo,
    pub dd: Place,
    pub nnodes: u64,
    pub nvars: u32,
    pub nsuppvars: u32,
    pub nroots: u64,
    pub next: usize,
    pub lines: usize,
}

// The numbers, by the last value of each key.
fn header_in(f: &[u8], starts: &[u32], ends: &[u32], next: usize, lines: usize) -> DumpHeader
    requires { Table f.now starts.now ends.now }
    ensures { of_header result ≡ header_in f.now (spans starts.now ends.now) next lines }
{
    DumpHeader {
        ascii: header_values::ascii_in(f, starts, ends),
        varinfo: header_values::varinfo_in(f, starts, ends),
        dd: header_values::dd_in(f, starts, ends),
        nnodes: header_values::number_in::<u64>(f, starts, ends, Key::Nnodes),
        nvars: header_values::number_in::<u32>(f, starts, ends, Key::Nvars),
        nsuppvars: header_values::number_in::<u32>(f, starts, ends, Key::Nsuppvars),
        nroots: header_values::number_in::<u64>(f, starts, ends, Key::Nroots),
        next,
        lines,
    }
}

// The lines of the header, where nothing was found before. The two lists, zeros at first, hold the span of each key's last value.
fn swept_after(
    f: &[u8],
    found: u8,
    starts: &mut [u32],
    ends: &mut [u32],
) -> Result<(usize, usize), Fault>
    requires may_read { MayRead limits found f.now }
    requires starts_value { starts.old ≡ replicate keys 0 }
    requires ends_value { ends.old ≡ replicate keys 0 }
    ensures { SweptPromise (seen f) found (borrowed starts) (borrowed ends) result }
{
    if found != 0 {
        return Err(Fault {
            number: found,
            line: 0,
        });
    }
    header_lines::sweep(f, starts, ends)
}

// The number of what was found wrong with the lines, 0 for nothing.
fn found_in(swept: Result<(usize, usize), Fault>) -> u8
    ensures { result ≡ found_in (of_swept swept) }
{
    match swept {
        Ok(_) => 0,
        Err(fault) => fault.number,
    }
}

// The answer, by what the lines and then the header as a whole gave.
fn settled(
    f: &[u8],
    swept: Result<(usize, usize), Fault>,
    whole: Result<(), Fault>,
    starts: &[u32],
    ends: &[u32],
) -> Result<DumpHeader, Fault>
    requires { Table f.now starts.now ends.now }
    ensures { of_loaded result ≡ settled_of f.now (spans starts.now ends.now) whole (of_swept swept) }
{
    let (next, lines) = swept?;
    whole?;
    Ok(header_in(f, starts, ends, next, lines))
}

// On a refusal the lists are zeros again.
fn keep(
    loaded: Result<DumpHeader, Fault>,
    starts: &mut [u32],
    ends: &mut [u32],
    ids: &mut [u32],
    permids: &mut [u32],
)
    ensures { KeepPromise loaded (borrowed starts) (borrowed ends) (borrowed ids) (borrowed permids) }
{
    if loaded.is_err() {
        starts.fill(0);
        ends.fill(0);
        ids.fill(0);
        permids.fill(0);
    }
}

impl DumpHeader {
    // Loads the header of a file. `found` is what was found wrong before, any number, and 0 for nothing; the input's length is among what is judged there,
    // by `length_fault` of `stages`. The lists: `.ids`, the support order, `.permids`, `.auxids`, the variables' names as starts and lengths,
    // `.rootids`, the roots' names as starts and lengths.
    pub fn load(
        f: &[u8],
        found: u8,
        ids: &mut [u32],
        order: &mut [u32],
        permids: &mut [u32],
        auxids: &mut [u32],
        names: &mut [u32],
        lens: &mut [u32],
        roots: &mut [Edge],
        rootnames: &mut [u32],
        rootlens: &mut [u32],
    ) -> Result<DumpHeader, Fault>
        requires may_read { MayRead limits found f.now }
        requires long_after { LongAfter found ids.old permids.old order.old auxids.old names.old lens.old }
        ensures { LoadHeaderPromise (seen f) found (borrowed ids) (borrowed order) (borrowed permids) (borrowed auxids) (borrowed names) (borrowed lens)
            (borrowed roots) (borrowed rootnames) (borrowed rootlens) result }
    {
        let mut starts = [0u32; header_keys::KEYS];
        let mut ends = [0u32; header_keys::KEYS];
        let swept = swept_after(f, found, &mut starts, &mut ends);
        let whole = header_checks::whole_fault(
            f,
            found_in(swept),
            &starts,
            &ends,
            ids,
            permids,
            order,
            auxids,
            names,
            lens,
        );
        let loaded = settled(f, swept, whole, &starts, &ends);
        keep(loaded, &mut starts, &mut ends, ids, permids);
        header_lists::fill_lists(f, &starts, &ends, ids, permids, order, auxids, names, lens);
        header_lists::fill_roots(f, &starts, &ends, roots);
        header_values::names_in(
            f,
            &starts,
            &ends,
            Key::Rootnames,
            limits::ROOT_LIMIT,
            rootnames,
            rootlens,
        );
        loaded
    }
}
