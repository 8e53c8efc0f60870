// A tournament over the tasks' keys, kept beside the tables of a run: its root says who runs next and
// with which word, and a change of one key costs a step a level. This crate is no entry point: `kernel`
// and `scheduler` alone lend it a tree.
#![tactic(auto)]

pub mod fits;
pub mod keys;
pub mod tree;
