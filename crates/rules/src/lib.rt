// The types of the recorder's scheduler, by the names of docs/RULES.md. What each must do is in specs/,
// and that the rules keep the demands is proved in proofs/.
#![tactic(auto)]

pub mod answer;
pub mod capacity;
pub mod event;
pub mod plan;
pub mod priority;
pub mod protocol;
pub mod refusal;
pub mod state;
