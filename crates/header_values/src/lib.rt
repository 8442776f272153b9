// What the last value of each key says. Each was judged by the sweep, so that a reader refuses only where the key is missing: a number is
// then 0, a list empty.
#![tactic(auto)]

ghost use Rattle.codes.specs.Lent.{borrowed, seen};
ghost use Rattle.std.specs.Prelude.{◌≡◌, ◌+◌, ◌^◌, ◌≤◌, ◌<◌, length, replicate};
ghost use Rattle.codes.specs.Limits.{root_limit};
ghost use Rattle.header_lines.specs.Sweep.{Table};
ghost use Rattle.header_values.specs.Kinds.{of_place, of_var_info};
ghost use Rattle.header_values.specs.Promises.{U32sPromise, NamesPromise, NamesOverPromise, RootsInPromise};
ghost use Rattle.header_values.specs.Values.{spans, span_in, value_in, KnownKey, number_in, ascii_in, varinfo_in, dd_in, names_in};

use codes::{VarInfo, limits};
use header_keys::Key;
use read_numbers::Width;
use read_text::Place;

// A key's last value, and where its first byte stands.
fn value_in<'a>(f: &'a [u8], starts: &[u32], ends: &[u32], key: Key) -> (&'a [u8], u32)
    requires { Table f.now starts.now ends.now × KnownKey key }
    ensures value { result.0.now ≡ value_in f.now (spans starts.now ends.now) key }
    ensures start { result.1 ≡ (span_in (spans starts.now ends.now) key).start }
    ensures narrow { result.1 + length result.0.now < 2 ^ 32 }
{
    let slot = header_keys::slot_of(Some(key));
    let start = starts[slot];
    (&f[start as usize..ends[slot] as usize], start)
}

// A number, of the type that the caller asks for.
pub fn number_in<N: Width>(f: &[u8], starts: &[u32], ends: &[u32], key: Key) -> N
    requires { Table f.now starts.now ends.now × KnownKey key }
    ensures { N.value result ≡ number_in (N.MAX + 1) f.now (spans starts.now ends.now) key }
{
    let (value, _) = value_in(f, starts, ends, key);
    let Ok(number) = read_numbers::parse_single::<N>(value) else {
        return N::narrowed(0);
    };
    number
}

// Whether the nodes are text.
#[tactic(auto, using(read_text::proofs::Alike::pointwise_alike), unfolding(crate::specs::Values::ascii_in))]
pub fn ascii_in(f: &[u8], starts: &[u32], ends: &[u32]) -> bool
    requires { Table f.now starts.now ends.now }
    ensures { result ≡ ascii_in f.now (spans starts.now ends.now) }
{
    let (value, _) = value_in(f, starts, ends, Key::Mode);
    value != b"B".as_slice()
}

// What the extra word of a text node line holds.
pub fn varinfo_in(f: &[u8], starts: &[u32], ends: &[u32]) -> VarInfo
    requires { Table f.now starts.now ends.now }
    ensures { of_var_info result ≡ varinfo_in f.now (spans starts.now ends.now) }
{
    let (value, _) = value_in(f, starts, ends, Key::Varinfo);
    match value {
        [b'0'] => VarInfo::VariableID,
        [b'1'] => VarInfo::PermutationID,
        [b'2'] => VarInfo::AuxiliaryID,
        [b'3'] => VarInfo::VariableName,
        _ => VarInfo::None,
    }
}

// The diagram's name.
pub fn dd_in(f: &[u8], starts: &[u32], ends: &[u32]) -> Place
    requires { Table f.now starts.now ends.now }
    ensures { of_place result ≡ dd_in f.now (spans starts.now ends.now) }
{
    let (value, at) = value_in(f, starts, ends, Key::Dd);
    let Ok(place) = read_text::parse_str(value, at) else {
        return Place { start: 0, len: 0 };
    };
    place
}

// Reads a list of numbers over the front of a list of zeros, and answers how many there are. Where they are refused it is zeros again.
pub fn read_u32s(f: &[u8], starts: &[u32], ends: &[u32], key: Key, dst: &mut [u32]) -> usize
    requires table { Table f.now starts.now ends.now × KnownKey key }
    requires dst_value { dst.old ≡ replicate (length dst.old) 0 }
    ensures { U32sPromise (seen f) (seen starts) (seen ends) key (borrowed dst) result }
{
    let (value, _) = value_in(f, starts, ends, key);
    let Ok(n) = read_lists::parse_u32_list(value, limits::VAR_LIMIT, dst) else {
        dst.fill(0);
        return 0;
    };
    n
}

// Reads a list of numbers into a list that may hold anything, and answers how many there are. The rest of the lent list is zeros.
pub fn u32s_in(f: &[u8], starts: &[u32], ends: &[u32], key: Key, dst: &mut [u32]) -> usize
    requires { Table f.now starts.now ends.now × KnownKey key }
    ensures { U32sPromise (seen f) (seen starts) (seen ends) key (borrowed dst) result }
{
    dst.fill(0);
    read_u32s(f, starts, ends, key, dst)
}

// Reads a list of at most `max` names over the fronts of two lists of zeros, and answers how many there are. Where they are refused
// both are zeros again.
pub fn read_names(
    f: &[u8],
    starts: &[u32],
    ends: &[u32],
    key: Key,
    max: usize,
    names: &mut [u32],
    lens: &mut [u32],
) -> usize
    requires table { Table f.now starts.now ends.now × KnownKey key }
    requires names_value { names.old ≡ replicate (length names.old) 0 }
    requires lens_value { lens.old ≡ replicate (length lens.old) 0 }
    ensures { NamesPromise (seen f) (seen starts) (seen ends) key max (borrowed names) (borrowed lens) result }
{
    let (value, at) = value_in(f, starts, ends, key);
    let Ok(n) = read_text::parse_str_list(value, at, max, names, lens) else {
        names.fill(0);
        lens.fill(0);
        return 0;
    };
    n
}

// Reads a list of at most `max` names over the fronts of two lists that have room for them, and answers how many there are. What stands
// behind them in the lists is left as it may be.
pub fn names_over(
    f: &[u8],
    starts: &[u32],
    ends: &[u32],
    key: Key,
    max: usize,
    names: &mut [u32],
    lens: &mut [u32],
) -> usize
    requires table { Table f.now starts.now ends.now × KnownKey key }
    requires key_in_bounds { length (names_in max f.now (spans starts.now ends.now) key) ≤ length names.old }
    requires key_in_bounds_2 { length (names_in max f.now (spans starts.now ends.now) key) ≤ length lens.old }
    ensures { NamesOverPromise (seen f) (seen starts) (seen ends) key max (borrowed names) (borrowed lens) result }
{
    let (value, at) = value_in(f, starts, ends, key);
    read_text::parse_str_list(value, at, max, names, lens).unwrap_or(0)
}

// Reads a list of at most `max` names into lists that may hold anything, and answers how many there are. The rest of the lent lists is
// zeros.
pub fn names_in(
    f: &[u8],
    starts: &[u32],
    ends: &[u32],
    key: Key,
    max: usize,
    names: &mut [u32],
    lens: &mut [u32],
) -> usize
    requires { Table f.now starts.now ends.now × KnownKey key }
    ensures { NamesPromise (seen f) (seen starts) (seen ends) key max (borrowed names) (borrowed lens) result }
{
    names.fill(0);
    lens.fill(0);
    read_names(f, starts, ends, key, max, names, lens)
}

// Reads the roots over the front of a list, and answers how many there are.
pub fn roots_in(f: &[u8], starts: &[u32], ends: &[u32], dst: &mut [i64]) -> usize
    requires { Table f.now starts.now ends.now × (root_limit ≤ length dst.old) }
    ensures { RootsInPromise (seen f) (seen starts) (seen ends) (borrowed dst) result }
{
    let (value, _) = value_in(f, starts, ends, Key::Rootids);
    read_edges::parse_edge_list(value, limits::ROOT_LIMIT, dst).unwrap_or(0)
}

// How many names a list has.
pub fn count_names(f: &[u8], starts: &[u32], ends: &[u32], key: Key, max: usize) -> usize
    requires { Table f.now starts.now ends.now × KnownKey key }
    ensures { result ≡ length (names_in max f.now (spans starts.now ends.now) key) }
{
    read_names(f, starts, ends, key, max, &mut [0], &mut [0])
}
