// RULES 16: the recorder's library for a host in another language: a check, a load, a write, a single
// step, a replay, a bound and the reading of a job. A slice is passed as its address and its length, a plan and a state by
// value. An exported function takes and returns no enum: an event is given by its kind, id and amount,
// a verdict by its number and place and an answer by its number and calls, all 0 where nothing is
// refused.
#![tactic(auto)]

pub mod bound;
pub mod check;
pub mod job;
pub mod load;
pub mod replay;
pub mod step;
pub mod table;
pub mod write;
