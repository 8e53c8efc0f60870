// The six events on a state. This crate is no entry point: `scheduler` alone hands it a state, which is
// sound, since it was tested or since every event keeps it so.
#![tactic(auto)]

mod acquire;
pub mod act;
mod calls;
mod entry;
mod finish;
mod protocol;
mod refusals;
mod release;
mod switch;
mod tick;
mod unlock;
mod work;
