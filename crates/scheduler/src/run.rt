// Events from a given state until the first refusal: those of a book that was accepted, or a single one.
ghost use Rattle.std.specs.Prelude.{◌≡◌};
ghost use Rattle.rules.specs.Numbers.Place.{from};
ghost use Rattle.rules.specs.Replays.Replay.{ran_as};
ghost use Rattle.rules.specs.Replays.Run.{run_from};
ghost use Rattle.rules.specs.Schedulers.State.{fresh_of};
ghost use Rattle.scheduler.specs.Going.{RunReady, event_in, event_on};

use crate::turn::{event_at, turn};
use rules::answer::{Fault, Replayed};
use rules::event::Event;
use rules::plan::Plan;
use rules::protocol::Protocol;
use rules::state::{State, fresh};
use tournament::tree::Tournament;

// The turns of n events, from any sound state. The tournament is made here, and is nowhere else.
pub fn run_from(
    protocol: Protocol,
    plan: &Plan,
    state: &mut State,
    first: Event,
    body: &[u8],
    n: usize,
    rows: &mut [u8],
) -> Result<(), Fault>
    requires { RunReady protocol plan.now state.old n rows.old }
    ensures { record { verdict = result; state = state.new; rows = rows.new }
        ≡ run_from protocol plan.now (from (event_on first body.now) 0 n) 0 state.old rows.old }
{
    let mut tree = Tournament::of(plan.tasks, &state.released, &state.kept);
    for k in 0..n {
        turn(protocol, plan, state, &mut tree, first, body, rows, k)?;
    }
    Ok(())
}

// The first n events of a body, from a fresh start.
pub fn run(protocol: Protocol, plan: Plan, body: &[u8], n: usize, rows: &mut [u8]) -> Replayed
    requires { RunReady protocol plan fresh_of n rows.old }
    ensures { (ran_as result rows.new ≡ run_from protocol plan (from (event_in body.now) 0 n) 0 fresh_of rows.old)
        × (result.plan ≡ plan) }
{
    let mut state = fresh();
    let first = event_at(body, 0);
    let verdict = run_from(protocol, &plan, &mut state, first, body, n, rows);
    Replayed {
        verdict,
        plan,
        state,
    }
}
