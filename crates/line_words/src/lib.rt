// The words of a node line of text: its number, the extra word, the variable word.
#![tactic(auto)]

ghost use Rattle.std.specs.Prelude.{◌≡◌, ◌≤◌, ◌<◌, length};
ghost use Rattle.codes.specs.Refusals.{step_of};
ghost use Rattle.line_words.specs.Kinds.{WordWithin};
ghost use Rattle.line_words.specs.Words.{word_from, numbered, after_extra, variable_word};

use codes::refusal::Refusal;
use edges::Index;
use read_lines::Class;

// Where the word from a position on starts and ends: a blank must end it.
#[tactic(auto, unfolding(crate::specs::Words::word_from))]
fn word_from(s: &[u8], at: usize) -> Result<(usize, usize), Refusal>
    requires { at ≤ length s.now }
    ensures result_value { step_of result ≡ word_from s.now at }
    ensures word_within { WordWithin s.now result }
{
    let start = read_lines::forward(s, at, s.len(), Class::NonBlank);
    let end = read_lines::forward(s, start, s.len(), Class::Blank);
    if end < s.len() {
        return Ok((start, end));
    }
    Err(Refusal::BadLine)
}

// The position after the line's number, twice: an empty word. The number must be the expected one.
#[tactic(auto, using(std::proofs::lemmas::Result::err_from_is_err_and), unfolding(crate::specs::Words::numbered))]
fn numbered(node: Index, s: &[u8]) -> Result<(usize, usize), Refusal>
    ensures result_value { step_of result ≡ numbered node s.now }
    ensures word_within { WordWithin s.now result }
{
    let (v, at) = read_numbers::parse_first::<u64>(s)?;
    if v != u64::from(node) {
        return Err(Refusal::WrongNode);
    }
    Ok((at, at))
}

// The position after the extra word, where there is one.
#[tactic(auto, unfolding(crate::specs::Words::after_extra))]
fn after_extra(extra: bool, s: &[u8], at: usize) -> Result<(usize, usize), Refusal>
    requires { at ≤ length s.now }
    ensures result_value { step_of result ≡ after_extra extra s.now at }
    ensures word_within { WordWithin s.now result }
{
    if extra {
        return word_from(s, at);
    }
    Ok((at, at))
}

// The variable word.
#[tactic(auto, using(std::proofs::lemmas::Result::err_from_is_err_and), unfolding(crate::specs::Words::variable_word))]
pub fn variable_word(extra: bool, node: Index, s: &[u8]) -> Result<(usize, usize), Refusal>
    ensures result_value { step_of result ≡ variable_word extra node s.now }
    ensures word_within { WordWithin s.now result }
{
    let (_, at) = numbered(node, s)?;
    let (_, next) = after_extra(extra, s, at)?;
    word_from(s, next)
}
