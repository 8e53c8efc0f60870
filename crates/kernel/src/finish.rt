// RULES 9.8: finish.
ghost use Rattle.std.specs.Prelude.{◌≡◌};
ghost use Rattle.rules.specs.Replays.Step.{after_of};
ghost use Rattle.tournament.specs.Tournament.{IsTournamentOf};
ghost use Rattle.kernel.specs.Ready.{FinishReady};

use crate::entry::enter;
use crate::switch::switch;
use rules::event::Event;
use rules::plan::Plan;
use rules::protocol::Protocol;
use rules::state::State;
use tournament::tree::Tournament;

// The running task is released no more, and leaves; nothing is kept for it.
pub fn finish(protocol: Protocol, plan: &Plan, state: &mut State, tree: &mut Tournament)
    requires { FinishReady state.old × IsTournamentOf plan.now.tasks tree.old state.old }
    ensures state_after { state.new ≡ after_of protocol plan.now state.old Event.Finish }
    ensures tree_after { IsTournamentOf plan.now.tasks tree.new state.new }
{
    state.head.accepted += 1;
    state.released[state.head.running as usize] = 0;
    enter(plan, state);
    switch(protocol, state, tree);
}
