// RULES 9.2: the tests of each event, in their order; the first that holds refuses.
ghost use Rattle.std.specs.Prelude.{◌≡◌, ◌<◌};
ghost use Rattle.rules.specs.Numbers.Capacity.{max_tasks};
ghost use Rattle.rules.specs.Numbers.Refusal.{first_true};
ghost use Rattle.rules.specs.Schedulers.EventRefusals.{elsewhere, not_newest, past_limit, refusal_of, tests_of};
ghost use Rattle.rules.specs.Schedulers.Figures.{figures_of};
ghost use Rattle.kernel.specs.Acting.{IsSoundButForUser};

use figures::mask::has_bit;
use figures::row::{newest_of, under_of};
use rules::capacity::{MAX_ACCEPTED, MAX_TAKES, NOBODY};
use rules::event::Event;
use rules::plan::Plan;
use rules::refusal::Refusal;
use rules::state::State;

fn release_refusal(plan: &Plan, state: &State, t: u8) -> Result<(), Refusal>
    requires { IsSoundButForUser plan.now state.now }
    ensures { result ≡ first_true (tests_of plan.now (figures_of state.now) state.now.head.running (Event.Release t)) }
{
    let y = t as usize;
    if plan.tasks <= y {
        Err(Refusal::Unknown)
    } else if 0 < state.released[y] {
        Err(Refusal::AlreadyReleased)
    } else {
        Ok(())
    }
}

// Whether lock l is open for another task than the one that runs, by its owner's byte: the task plus one,
// or 0 for none.
fn open_elsewhere(plan: &Plan, state: &State, l: u8) -> bool
    requires sound { IsSoundButForUser plan.now state.now }
    requires known { (l < plan.now.locks) × (state.now.head.running < plan.now.tasks) }
    ensures { result ≡ elsewhere (figures_of state.now) plan.now.tasks state.now.head.running l }
{
    let owner = state.owner[l as usize];
    owner != 0 && owner != state.head.running + 1
}

fn acquire_refusal(plan: &Plan, state: &State, l: u8) -> Result<(), Refusal>
    requires { IsSoundButForUser plan.now state.now }
    ensures { result ≡ first_true (tests_of plan.now (figures_of state.now) state.now.head.running (Event.Acquire l)) }
{
    let x = state.head.running as usize;
    if state.head.running == NOBODY {
        Err(Refusal::NobodyRuns)
    } else if plan.locks <= l as usize {
        Err(Refusal::Unknown)
    } else if !has_bit(plan.uses[x], l) {
        Err(Refusal::NotDeclared)
    } else if open_elsewhere(plan, state, l) {
        Err(Refusal::OpenElsewhere)
    } else if MAX_TAKES <= state.depth[x] {
        Err(Refusal::RowFull)
    } else {
        Ok(())
    }
}

// Whether the running task's newest take is not of lock l, or it has none.
fn older(state: &State, l: u8) -> bool
    requires { state.now.head.running < max_tasks }
    ensures { result ≡ not_newest (figures_of state.now) state.now.head.running l }
{
    let x = state.head.running as usize;
    state.depth[x] == 0 || newest_of(state.takes[x]) != l
}

fn unlock_refusal(plan: &Plan, state: &State, l: u8) -> Result<(), Refusal>
    requires { IsSoundButForUser plan.now state.now }
    ensures { result ≡ first_true (tests_of plan.now (figures_of state.now) state.now.head.running (Event.Unlock l)) }
{
    if state.head.running == NOBODY {
        Err(Refusal::NobodyRuns)
    } else if plan.locks <= l as usize {
        Err(Refusal::Unknown)
    } else if older(state, l) {
        Err(Refusal::NotNewest)
    } else {
        Ok(())
    }
}

// Whether a units more would take an open section of the running task past its limit.
fn past(plan: &Plan, state: &State, a: u16) -> bool
    requires sound { IsSoundButForUser plan.now state.now }
    requires known { state.now.head.running < plan.now.tasks }
    ensures { result ≡ past_limit plan.now (figures_of state.now) state.now.head.running a }
{
    let x = state.head.running as usize;
    let mut left = state.takes[x];
    for _older in (0..state.depth[x]).rev() {
        let l = newest_of(left) as usize;
        if (plan.limit[l] as u32) < state.units[l] as u32 + a as u32 {
            return true;
        }
        left = under_of(left);
    }
    false
}

fn work_refusal(plan: &Plan, state: &State, a: u16) -> Result<(), Refusal>
    requires { IsSoundButForUser plan.now state.now }
    ensures { result ≡ first_true (tests_of plan.now (figures_of state.now) state.now.head.running (Event.Work a)) }
{
    if a == 0 {
        Err(Refusal::NoWork)
    } else if state.head.running == NOBODY {
        Err(Refusal::NobodyRuns)
    } else if past(plan, state, a) {
        Err(Refusal::PastLimit)
    } else {
        Ok(())
    }
}

fn finish_refusal(plan: &Plan, state: &State) -> Result<(), Refusal>
    requires { IsSoundButForUser plan.now state.now }
    ensures { result ≡ first_true (tests_of plan.now (figures_of state.now) state.now.head.running Event.Finish) }
{
    if state.head.running == NOBODY {
        Err(Refusal::NobodyRuns)
    } else if 0 < state.depth[state.head.running as usize] {
        Err(Refusal::StillOpen)
    } else {
        Ok(())
    }
}

// 11, then the event's own tests.
pub fn refusal(plan: &Plan, state: &State, e: Event) -> Result<(), Refusal>
    requires { IsSoundButForUser plan.now state.now }
    ensures { result ≡ refusal_of plan.now (figures_of state.now) state.now.head.running e }
{
    if MAX_ACCEPTED <= state.head.accepted {
        return Err(Refusal::Exhausted);
    }
    match e {
        Event::Release(t) => release_refusal(plan, state, t),
        Event::Acquire(l) => acquire_refusal(plan, state, l),
        Event::Unlock(l) => unlock_refusal(plan, state, l),
        Event::Work(a) => work_refusal(plan, state, a),
        Event::Finish => finish_refusal(plan, state),
        Event::Tick => Ok(()),
    }
}
