// RULES 8: the test of soundness that stands before every step of a state that is handed in. The plan and
// the state are lent where they lie.
#![tactic(auto)]

mod head;
mod lock;
mod priority;
mod rank;
mod task;
mod unused;

ghost use Rattle.std.specs.Prelude.{◌≡◌};
ghost use Rattle.rules.specs.Soundness.SoundTest.{sound_test};

use crate::head::head_sound;
use crate::lock::locks_sound;
use crate::task::tasks_sound;
use crate::unused::unused_sound;
use plan::obeys;
use rules::plan::Plan;
use rules::protocol::Protocol;
use rules::state::State;

// Whether every condition of soundness holds of any plan and any state, by either protocol. What a later
// test asks rests on the earlier ones: only where the tasks are sound are the named owners and the kept
// priorities enough, and are the rows short.
#[tactic(auto, using(crate::proofs::Tests::turns, crate::proofs::Whole::tasks_first, crate::proofs::Whole::obeyed_tasks, crate::proofs::Whole::obeyed_locks))]
pub fn sound(protocol: Protocol, p: Plan, s: State) -> bool
    ensures { result ≡ sound_test protocol p s }
{
    obeys(p)
        && tasks_sound(&p, &s)
        && head_sound(protocol, &p, &s)
        && locks_sound(&p, &s)
        && unused_sound(&p, &s)
}
