ghost use Rattle.std.specs.Prelude.{◌≡◌};
ghost use Rattle.rules.specs.Numbers.Answer.{answer_calls, answer_number, verdict_number, verdict_place};

use crate::event::Event;
use crate::plan::Plan;
use crate::refusal::Refusal;
use crate::state::State;

// What is refused, and the place of the first offender.
#[derive(Clone, Copy, PartialEq, Eq)]
pub struct Fault {
    pub why: Refusal,
    pub place: usize,
}

// What stands at a place of the event body: an event, with the next place; a record that is
// refused, at its place; or no whole record. Three outcomes, which an `Option` of a `Result` says no
// plainer.
#[derive(Clone, Copy)]
pub enum Found {
    Got(Event, usize),
    Refused(Refusal, usize),
    End,
}

// What a book that passes its checks gives: its plan, and the place of its event body.
#[derive(Clone, Copy)]
pub struct Opened {
    pub plan: Plan,
    pub events: usize,
}

// The answer of a step and the state after it, which is the given one where the event is refused. No
// `Result`, since the state is wanted beside a refusal too.
#[derive(Clone, Copy)]
pub struct Stepped {
    pub answer: Result<bool, Refusal>,
    pub state: State,
}

// What the replay of a book comes to: what was refused, the plan that was loaded, and the state where
// the run stopped; the blank plan and a fresh state where the book itself is refused. Plan and state
// are wanted beside a refusal, so this is no `Result`.
#[derive(Clone, Copy)]
pub struct Replayed {
    pub verdict: Result<(), Fault>,
    pub plan: Plan,
    pub state: State,
}

// A verdict as its number and place; both 0 where nothing is refused.
#[tactic(auto, unfolding(crate::specs::Numbers::Answer::verdict_number))]
pub fn verdict_number(v: Result<(), Fault>) -> u8
    ensures { result ≡ verdict_number v }
{
    match v {
        Ok(()) => 0,
        Err(fault) => u8::from(fault.why),
    }
}

#[tactic(auto, unfolding(crate::specs::Numbers::Answer::verdict_place))]
pub fn verdict_place(v: Result<(), Fault>) -> usize
    ensures { result ≡ verdict_place v }
{
    match v {
        Ok(()) => 0,
        Err(fault) => fault.place,
    }
}

// An answer as its number, 0 where the event is accepted, and its lazy calls.
#[tactic(auto, unfolding(crate::specs::Numbers::Answer::answer_number))]
pub fn answer_number(a: Result<bool, Refusal>) -> u8
    ensures { result ≡ answer_number a }
{
    match a {
        Ok(_) => 0,
        Err(why) => u8::from(why),
    }
}

#[tactic(auto, using(crate::proofs::Numbers::Choice::byte_when), unfolding(crate::specs::Numbers::Answer::answer_calls))]
pub fn answer_calls(a: Result<bool, Refusal>) -> u8
    ensures { result ≡ answer_calls a }
{
    match a {
        Ok(call) => u8::from(call),
        Err(_) => 0,
    }
}
