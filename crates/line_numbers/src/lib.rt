// The numbers of a node line in binary: its variable's, and those of its children, read and checked.
#![tactic(auto)]

ghost use Rattle.std.specs.Prelude.{◌≡◌};
ghost use Rattle.codes.specs.Answer.{then};
ghost use Rattle.codes.specs.Refusals.{step_of};
ghost use Rattle.line_numbers.specs.Kinds.{ReadBelow};
ghost use Rattle.line_numbers.specs.Numbers.{id_at, below, variable_at};

use codes::Code;
use codes::refusal::Refusal;
use edges::Index;

// The number of a child of line `node`, with the position after it. A distance above `node` gives 0, the number of no line. (The Rust
// underflows.)
#[tactic(auto, using(std::proofs::lemmas::Result::err_from_is_err_and), unfolding(crate::specs::Numbers::id_at))]
fn id_at(code: Code, node: Index, f: &[u8], at: usize) -> Result<(u64, usize), Refusal>
    ensures { step_of result ≡ id_at code node f.now at }
{
    match code {
        Code::Terminal => Ok((1, at)),
        Code::AbsoluteID => read_binary::decode_7bit(f, at),
        Code::RelativeID => {
            let (distance, next) = read_binary::decode_7bit(f, at)?;
            Ok((u64::from(node).saturating_sub(distance), next))
        }
        Code::Relative1 => Ok((u64::from(node).saturating_sub(1), at)),
    }
}

// The number of a child of line `node`, read after another number; a refusal of that one passes on.
#[tactic(auto, using(std::proofs::lemmas::Result::err_from_is_err_and))]
pub fn id_after(
    code: Code,
    node: Index,
    f: &[u8],
    last: Result<(u64, usize), Refusal>,
) -> Result<(u64, usize), Refusal>
    ensures { step_of result ≡ then (step_of last) (λ _ at. id_at code node f.now at) }
{
    let (_, at) = last?;
    id_at(code, node, f, at)
}

// The check of a child's number: it is that of a line below line `node`. A refusal of the number passes on.
#[tactic(auto, using(std::proofs::lemmas::Result::err_from_is_err_and))]
pub fn below(node: Index, child: Result<(u64, usize), Refusal>) -> Result<(u64, usize), Refusal>
    ensures result_value { step_of result ≡ then (step_of child) (below node) }
    ensures read_below { ReadBelow node result }
{
    let (id, next) = child?;
    if id == 0 || u64::from(node) <= id {
        return Err(Refusal::BadChild);
    }
    Ok((id, next))
}

// The number of a variable, with the position after it.
#[tactic(auto, unfolding(crate::specs::Numbers::variable_at))]
pub fn variable_at(code: Code, f: &[u8], at: usize) -> Result<(u64, usize), Refusal>
    ensures { step_of result ≡ variable_at code f.now at }
{
    match code {
        Code::Terminal => Ok((0, at)),
        Code::AbsoluteID | Code::RelativeID => read_binary::decode_7bit(f, at),
        Code::Relative1 => Ok((1, at)),
    }
}
