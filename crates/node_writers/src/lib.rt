// A node line written, in text and in binary.
#![tactic(auto)]

pub mod binary;
pub mod text;
