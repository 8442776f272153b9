// The codes of the DDDMP format, its classes of bytes, the limits and the refusals: what every later layer shares.
#![tactic(auto)]

ghost use Rattle.std.specs.Prelude.{◌≡◌};
ghost use Rattle.codes.specs.Bytes.{is_blank, is_digit, is_line_end, is_whitespace, is_control};
ghost use Rattle.codes.specs.Codes.{code_of};

pub mod limits;
pub mod refusal;

// The versions of the format.
#[derive(Clone, Copy, PartialEq, Eq)]
pub enum DDDMPVersion {
    V2_0,
    V3_0,
}

// What the extra word of a text node line holds: the value of `.varinfo`.
#[derive(Clone, Copy, PartialEq, Eq)]
pub enum VarInfo {
    VariableID,
    PermutationID,
    AuxiliaryID,
    VariableName,
    None,
}

// How a binary node line writes its variable and its children.
#[derive(Clone, Copy, PartialEq, Eq)]
pub enum Code {
    Terminal,
    AbsoluteID,
    RelativeID,
    Relative1,
}

// The code in the lowest two bits: the others belong to other codes.
impl From<u8> for Code {
    ghost from_gives = { λ value c. c ≡ code_of value };

    #[tactic(auto, unfolding(crate::specs::Codes::code_of))]
    fn from(value: u8) -> Code {
        match value % 4 {
            0 => Code::Terminal,
            1 => Code::AbsoluteID,
            2 => Code::RelativeID,
            _ => Code::Relative1,
        }
    }
}

// Space and tab.
#[tactic(auto, unfolding(crate::specs::Bytes::is_blank))]
pub fn is_blank(b: u8) -> bool
    ensures { result ≡ is_blank b }
{
    matches!(b, b' ' | b'\t')
}

// A decimal digit.
#[tactic(auto, unfolding(crate::specs::Bytes::is_digit))]
pub fn is_digit(b: u8) -> bool
    ensures { result ≡ is_digit b }
{
    b.is_ascii_digit()
}

// LF and CR.
#[tactic(auto, unfolding(crate::specs::Bytes::is_line_end))]
pub fn is_line_end(b: u8) -> bool
    ensures { result ≡ is_line_end b }
{
    matches!(b, b'\n' | b'\r')
}

// What may stand after `.end`.
#[tactic(auto, unfolding(crate::specs::Bytes::is_whitespace))]
pub fn is_whitespace(b: u8) -> bool
    ensures { result ≡ is_whitespace b }
{
    is_blank(b) || is_line_end(b) || b == b'\x0c'
}

// What no exported name may hold.
#[tactic(auto, unfolding(crate::specs::Bytes::is_control))]
pub fn is_control(b: u8) -> bool
    ensures { result ≡ is_control b }
{
    b.is_ascii_control()
}
