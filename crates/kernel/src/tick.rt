// RULES 9.9: tick.
ghost use Rattle.std.specs.Prelude.{◌≡◌};
ghost use Rattle.rules.specs.Replays.Step.{after_of};
ghost use Rattle.tournament.specs.Tournament.{IsTournamentOf};
ghost use Rattle.kernel.specs.Ready.{TickReady};

use crate::entry::enter;
use crate::protocol::second_word;
use crate::switch::best;
use rules::event::Event;
use rules::plan::Plan;
use rules::protocol::Protocol;
use rules::state::State;
use tournament::tree::Tournament;

// The kernel is entered, and that is all.
pub fn tick(protocol: Protocol, plan: &Plan, state: &mut State, tree: &Tournament)
    requires { TickReady state.old × IsTournamentOf plan.now.tasks tree.now state.old }
    ensures { state.new ≡ after_of protocol plan.now state.old Event.Tick }
{
    state.head.accepted += 1;
    enter(plan, state);
    state.head.next = second_word(protocol, state.head.user, best(state, tree));
}
