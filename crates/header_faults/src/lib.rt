// How the value of each key is judged, by the readers that read it again later. A reader that only judges is lent lists of no use.
#![tactic(auto)]

ghost use Rattle.std.specs.Prelude.{◌≡◌, ◌+◌, ◌<◌, ◌^◌, length};
ghost use Rattle.codes.specs.Refusals.{fault_of as number_of_fault};
ghost use Rattle.header_faults.specs.Judge.{version_fault, mode_fault, varinfo_fault, text_fault, single_fault, u32_list_fault, root_list_fault, name_list_fault, word_fault};

use codes::limits::{ROOT_LIMIT, VAR_LIMIT};
use codes::refusal::Refusal;
use header_keys::Key;
use read_numbers::Width;

#[tactic(auto, using(read_text::proofs::Alike::pointwise_alike), unfolding(crate::specs::Judge::version_fault))]
fn version_fault(value: &[u8]) -> Result<(), Refusal>
    ensures { number_of_fault result ≡ version_fault value.now }
{
    if value == b"DDDMP-2.0".as_slice() || value == b"DDDMP-3.0".as_slice() {
        return Ok(());
    }
    Err(Refusal::BadVersion)
}

#[tactic(auto, using(read_text::proofs::Alike::pointwise_alike), unfolding(crate::specs::Judge::mode_fault))]
fn mode_fault(value: &[u8]) -> Result<(), Refusal>
    ensures { number_of_fault result ≡ mode_fault value.now }
{
    if value == b"A".as_slice() || value == b"B".as_slice() {
        return Ok(());
    }
    Err(Refusal::BadMode)
}

#[tactic(auto, unfolding(crate::specs::Judge::varinfo_fault))]
fn varinfo_fault(value: &[u8]) -> Result<(), Refusal>
    ensures { number_of_fault result ≡ varinfo_fault value.now }
{
    match value {
        [b'0'..=b'4'] => Ok(()),
        _ => Err(Refusal::BadMode),
    }
}

#[tactic(auto, using(std::proofs::lemmas::Result::err_from_is_err_and), unfolding(crate::specs::Judge::text_fault))]
fn text_fault(value: &[u8], base: u32) -> Result<(), Refusal>
    requires { base + length value.now < 2 ^ 32 }
    ensures { number_of_fault result ≡ text_fault base value.now }
{
    read_text::parse_str(value, base)?;
    Ok(())
}

#[tactic(auto, using(std::proofs::lemmas::Result::err_from_is_err_and), unfolding(crate::specs::Judge::single_fault))]
fn single_fault<N: Width>(value: &[u8]) -> Result<(), Refusal>
    ensures { number_of_fault result ≡ single_fault (N.MAX + 1) value.now }
{
    read_numbers::parse_single::<N>(value)?;
    Ok(())
}

#[tactic(auto, using(std::proofs::lemmas::Result::err_from_is_err_and), unfolding(crate::specs::Judge::u32_list_fault))]
fn u32_list_fault(value: &[u8]) -> Result<(), Refusal>
    ensures { number_of_fault result ≡ u32_list_fault value.now }
{
    read_lists::parse_u32_list(value, VAR_LIMIT, &mut [0])?;
    Ok(())
}

#[tactic(auto, using(std::proofs::lemmas::Result::err_from_is_err_and), unfolding(crate::specs::Judge::root_list_fault))]
fn root_list_fault(value: &[u8]) -> Result<(), Refusal>
    ensures { number_of_fault result ≡ root_list_fault value.now }
{
    read_edges::parse_edge_list(value, ROOT_LIMIT, &mut [0])?;
    Ok(())
}

#[tactic(auto, using(std::proofs::lemmas::Result::err_from_is_err_and), unfolding(crate::specs::Judge::name_list_fault))]
fn name_list_fault(value: &[u8], base: u32, max: usize) -> Result<(), Refusal>
    requires { base + length value.now < 2 ^ 32 }
    ensures { number_of_fault result ≡ name_list_fault max base value.now }
{
    read_text::parse_str_list(value, base, max, &mut [0], &mut [0])?;
    Ok(())
}

// Judges a line's key, and its value, whose first byte stands at `base`.
#[tactic(auto, unfolding(crate::specs::Judge::fault_of))]
pub fn fault_of(key: Option<Key>, value: &[u8], base: u32) -> Result<(), Refusal>
    requires { base + length value.now < 2 ^ 32 }
    ensures { number_of_fault result ≡ word_fault key base value.now }
{
    let Some(key) = key else {
        return Err(Refusal::UnknownKey);
    };
    match key {
        Key::Ver => version_fault(value),
        Key::Mode => mode_fault(value),
        Key::Varinfo => varinfo_fault(value),
        Key::Dd => text_fault(value, base),
        Key::Nnodes | Key::Nroots => single_fault::<u64>(value),
        Key::Nvars | Key::Nsuppvars => single_fault::<u32>(value),
        Key::Nodes => Ok(()),
        Key::Varnames | Key::Suppvarnames | Key::Orderedvarnames => name_list_fault(
            value, base, VAR_LIMIT,
        ),
        Key::Ids | Key::Permids | Key::Auxids => u32_list_fault(value),
        Key::Rootids => root_list_fault(value),
        Key::Rootnames => name_list_fault(value, base, ROOT_LIMIT),
    }
}
