// Where a record stands after each move, and which move is the k-th of a list.
#![tactic(auto)]

pub mod turns;
