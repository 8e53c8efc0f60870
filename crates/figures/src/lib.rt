// What every crate shares of numbers: rows of takes and of saved words, sets of locks, the rest of
// a table, and the two kinds of priority.
#![tactic(auto)]

pub mod mask;
pub mod priority;
pub mod row;
pub mod spare;
