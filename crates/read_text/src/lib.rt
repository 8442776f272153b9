// Names and texts: UTF-8, as places of the file.
#![tactic(auto)]

ghost use Rattle.std.specs.Prelude.{◌≡◌, map, ◌^◌, ◌+◌, ◌<◌, length};
ghost use Rattle.read_text.specs.Text.{start_of, len_of, utf8_next, is_utf8, name_list, text_at};
ghost use Rattle.codes.specs.Lent.{laid};
ghost use Rattle.codes.specs.Refusals.{read_of};
ghost use Rattle.read_text.specs.Kinds.{of_place, of_utf8_next};
ghost use Rattle.read_text.specs.Alike.{alike};

use codes::refusal::Refusal;
use read_lines::Words;

// Where a text stands in the file; an empty one has start 0 and length 0.
#[derive(Clone, Copy, PartialEq, Eq)]
pub struct Place {
    pub start: u32,
    pub len: u32,
}

// Between two bytes of a text: no character is begun; or one is, and waits for a byte in a range and then for some further ones.
#[derive(Clone, Copy, PartialEq, Eq)]
pub enum Utf8 {
    Whole,
    Tail(u8, u8, u8),
}

#[tactic(auto, unfolding(crate::specs::Text::utf8_next))]
fn utf8_lead(b: u8) -> Option<Utf8>
    ensures { of_utf8_next result ≡ utf8_next Utf8.Whole b }
{
    // Before the match, which the compiler makes a table of: most bytes are characters of their own and shall not go through it.
    if b < 0x80 {
        return Some(Utf8::Whole);
    }
    match b {
        0xc2..=0xdf => Some(Utf8::Tail(0, 0x80, 0xbf)),
        0xe0 => Some(Utf8::Tail(1, 0xa0, 0xbf)),
        0xed => Some(Utf8::Tail(1, 0x80, 0x9f)),
        0xe1..=0xef => Some(Utf8::Tail(1, 0x80, 0xbf)),
        0xf0 => Some(Utf8::Tail(2, 0x90, 0xbf)),
        0xf1..=0xf3 => Some(Utf8::Tail(2, 0x80, 0xbf)),
        0xf4 => Some(Utf8::Tail(2, 0x80, 0x8f)),
        _ => None,
    }
}

#[tactic(auto, unfolding(crate::specs::Text::utf8_next))]
fn utf8_tail(more: u8, low: u8, high: u8, b: u8) -> Option<Utf8>
    ensures { of_utf8_next result ≡ utf8_next (Utf8.Tail more low high) b }
{
    if b < low || high < b {
        return None;
    }
    if more == 0 {
        return Some(Utf8::Whole);
    }
    Some(Utf8::Tail(more - 1, 0x80, 0xbf))
}

// One byte more of a text.
pub fn utf8_next(state: Utf8, b: u8) -> Option<Utf8>
    ensures { of_utf8_next result ≡ utf8_next state b }
{
    match state {
        Utf8::Whole => utf8_lead(b),
        Utf8::Tail(more, low, high) => utf8_tail(more, low, high, b),
    }
}

// Stays: by the states of `utf8_next`, in whose terms the laws of specs/Utf8.antt and the writer of names speak.
pub fn is_utf8(input: &[u8]) -> bool
    ensures { result ≡ is_utf8 input.now }
{
    let mut state = Utf8::Whole;
    for b in input {
        let Some(next) = utf8_next(state, *b) else {
            return false;
        };
        state = next;
    }
    matches!(state, Utf8::Whole)
}

// The place of a text that starts at `base`.
#[tactic(auto, unfolding(crate::specs::Text::text_at))]
pub fn parse_str(input: &[u8], base: u32) -> Result<Place, Refusal>
    requires { base + length input.now < 2 ^ 32 }
    ensures { of_place result ≡ text_at base input.now }
{
    if !is_utf8(input) {
        return Err(Refusal::NotUtf8);
    }
    if input.len() == 0 {
        return Ok(Place { start: 0, len: 0 });
    }
    Ok(Place {
        start: base,
        len: input.len() as u32,
    })
}

// Reads the names of a line whose first byte stands at `base`, at most `max`: their places go over the front of the two lists, on a
// refusal those before the fault.
pub fn parse_str_list(
    input: &[u8],
    base: u32,
    max: usize,
    starts: &mut [u32],
    lens: &mut [u32],
) -> Result<usize, Refusal>
    requires { base + length input.now < 2 ^ 32 }
    ensures result_value { read_of result ≡ (name_list max base input.now).answer }
    ensures starts_after { starts.new ≡ laid (map start_of (name_list max base input.now).entries) starts.old }
    ensures lens_after { lens.new ≡ laid (map len_of (name_list max base input.now).entries) lens.old }
{
    let mut n: usize = 0;
    for (at, word) in Words::of(input, base as usize) {
        if !is_utf8(word) {
            return Err(Refusal::NotUtf8);
        }
        if max <= n {
            return Err(Refusal::OverLimit);
        }
        read_lists::put(starts, n, at as u32);
        read_lists::put(lens, n, word.len() as u32);
        n += 1;
    }
    Ok(n)
}

// Whether two texts are the same. Byte by byte, and not by `==`: one of them is a constant wherever this is called, and the compiler then
// makes a few tests of the loop; of `==` it makes a call.
pub fn same(a: &[u8], b: &[u8]) -> bool
    ensures { result ≡ alike a.now b.now }
{
    if a.len() != b.len() {
        return false;
    }
    for i in 0..b.len() {
        if a[i] != b[i] {
            return false;
        }
    }
    true
}
