// Numbers and bytes written into a lent part, each from a position on; the answer is the position after it.
#![tactic(auto)]

pub mod binary;
pub mod text;
