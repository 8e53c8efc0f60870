// RULES 19.5 to 19.10: a book from words, words from a book, and what a replay was about.
#![tactic(auto)]

pub mod compose;
mod entry;
pub mod explain;
pub mod show;
pub mod space;
