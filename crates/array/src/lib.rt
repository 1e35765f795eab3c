// The board: its cells and links, and the moves that it can make.
#![tactic(auto)]

pub mod cells;
pub mod lent;
pub mod moves;
