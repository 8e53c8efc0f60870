// The step of a sound state: 11 to 22, or the event is accepted. The state is changed in place, and so is
// the tournament beside its kept priorities.
ghost use Rattle.std.specs.Prelude.{◌≡◌};
ghost use Rattle.rules.specs.Replays.Step.{act_of, after_of};
ghost use Rattle.rules.specs.Schedulers.Lazy.{lazy_call, words_of};
ghost use Rattle.rules.specs.Soundness.Sound.{SoundAndSized};
ghost use Rattle.tournament.specs.Tournament.{IsTournamentOf};
ghost use Rattle.kernel.specs.Acting.{Accepts};

use crate::acquire::acquire;
use crate::finish::finish;
use crate::refusals::refusal;
use crate::release::release;
use crate::tick::tick;
use crate::unlock::unlock;
use crate::work::work;
use rules::event::Event;
use rules::plan::Plan;
use rules::protocol::Protocol;
use rules::refusal::Refusal;
use rules::state::State;
use tournament::tree::Tournament;

// An event that has passed its tests. Only an unlock may call the kernel, and says whether it did.
fn accept(
    protocol: Protocol,
    plan: &Plan,
    state: &mut State,
    tree: &mut Tournament,
    e: Event,
) -> bool
    requires { Accepts plan.now state.old e × IsTournamentOf plan.now.tasks tree.old state.old }
    ensures call { result ≡ lazy_call (words_of state.old) e }
    ensures state_after { state.new ≡ after_of protocol plan.now state.old e }
    ensures tree_after { IsTournamentOf plan.now.tasks tree.new state.new }
{
    match e {
        Event::Release(t) => {
            release(protocol, plan, state, tree, t);
            false
        }
        Event::Acquire(l) => {
            acquire(plan, state, l);
            false
        }
        Event::Unlock(l) => unlock(protocol, plan, state, tree, l),
        Event::Work(a) => {
            work(plan, state, tree, a);
            false
        }
        Event::Finish => {
            finish(protocol, plan, state, tree);
            false
        }
        Event::Tick => {
            tick(protocol, plan, state, tree);
            false
        }
    }
}

pub fn act(
    protocol: Protocol,
    plan: &Plan,
    state: &mut State,
    tree: &mut Tournament,
    e: Event,
) -> Result<bool, Refusal>
    requires { SoundAndSized protocol plan.now state.old × IsTournamentOf plan.now.tasks tree.old state.old }
    ensures state_after { record { answer = result; state = state.new } ≡ act_of protocol plan.now state.old e }
    ensures tree_after { IsTournamentOf plan.now.tasks tree.new state.new }
{
    refusal(plan, state, e)?;
    Ok(accept(protocol, plan, state, tree, e))
}
