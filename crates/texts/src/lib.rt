// Texts of lines, fields and numbers, read from lent slices.
#![tactic(auto)]

pub mod input;
pub mod read;
