// RULES 19.1 to 19.4: a text, line by line: the records of each part, the first line with a mistake, and the line of a
// record.
#![tactic(auto)]

pub mod kind;
pub mod line;
pub mod lines;
pub mod number;
mod record;
pub mod word;
