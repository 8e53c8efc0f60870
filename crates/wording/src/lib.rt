// RULES 19.5 to 19.9: what is said in words of a refusal, a mistake, a record and an event.
#![tactic(auto)]

pub mod meaning;
pub mod mistake;
pub mod reason;
pub mod record;
