// RULES 9.4: release.
ghost use Rattle.std.specs.Prelude.{◌≡◌, ◌<◌, set};
ghost use Rattle.rules.specs.Replays.Step.{after_of};
ghost use Rattle.rules.specs.Schedulers.Lazy.{after_release, best_kept, stays, switched, words_of};
ghost use Rattle.tournament.specs.Tournament.{IsTournamentOf};
ghost use Rattle.kernel.specs.Acting.{Arrives, with_words};
ghost use Rattle.kernel.specs.Ready.{ReleaseReady};

use crate::entry::enter;
use crate::protocol::second_word;
use crate::switch::{best, keep, leave};
use figures::priority::{above, kernel_of, recorded, shown};
use rules::event::Event;
use rules::plan::Plan;
use rules::priority::KernelPriority;
use rules::protocol::Protocol;
use rules::state::State;
use tournament::tree::Tournament;

// A newcomer t above the user word and above all that is kept, which is `most` at the greatest, is the
// one that runs, so it is not kept first (RULES 8.13).
fn newcomer_runs(
    protocol: Protocol,
    state: &mut State,
    tree: &mut Tournament,
    t: u8,
    base: KernelPriority,
    most: KernelPriority,
)
    requires arrives { Arrives tree.old.tasks state.old t × IsTournamentOf tree.old.tasks tree.old state.old }
    requires user_lt_base { (state.old.head.user.0 < base.0) × (most.0 < base.0)
        × (most.0 ≡ best_kept state.old.kept tree.old.tasks) }
    ensures state_after { state.new ≡ with_words state.old
        (switched protocol tree.old.tasks state.old.released
        (set (set state.old.kept t base.0) state.old.head.running state.old.head.user.0)
        (words_of state.old)) }
    ensures tree_after { IsTournamentOf tree.old.tasks tree.new state.new }
{
    let running = state.head.running;
    let leaving = recorded(state.head.user);
    keep(state, tree, running, leaving);
    state.head.running = t;
    state.head.user = shown(base);
    state.head.next = second_word(protocol, state.head.user, most.max(leaving));
}

// A newcomer that is not above the user word is kept, and waits.
fn newcomer_waits(
    protocol: Protocol,
    state: &mut State,
    tree: &mut Tournament,
    t: u8,
    base: KernelPriority,
    most: KernelPriority,
)
    requires { Arrives tree.old.tasks state.old t × IsTournamentOf tree.old.tasks tree.old state.old
        × (most.0 ≡ best_kept state.old.kept tree.old.tasks) }
    ensures state_after { state.new ≡ with_words state.old
        (stays protocol tree.old.tasks (set state.old.kept t base.0) (words_of state.old)) }
    ensures tree_after { IsTournamentOf tree.old.tasks tree.new state.new }
{
    keep(state, tree, t, base);
    state.head.next = second_word(protocol, state.head.user, most.max(base));
}

// The kernel keeps the newcomer t's base. It switches where the user word is strictly below that base,
// and only there.
fn arrive(protocol: Protocol, state: &mut State, tree: &mut Tournament, t: u8, base: KernelPriority)
    requires { Arrives tree.old.tasks state.old t × IsTournamentOf tree.old.tasks tree.old state.old }
    ensures state_after { state.new ≡ with_words state.old
        (after_release protocol tree.old.tasks state.old.released (set state.old.kept t base.0) base.0
        (words_of state.old)) }
    ensures tree_after { IsTournamentOf tree.old.tasks tree.new state.new }
{
    let most = best(state, tree);
    if !above(base, state.head.user) {
        newcomer_waits(protocol, state, tree, t, base, most);
    } else if most < base {
        newcomer_runs(protocol, state, tree, t, base, most);
    } else {
        keep(state, tree, t, base);
        leave(protocol, state, tree);
    }
}

// The newcomer t has a release number and no delay, and arrives.
pub fn release(protocol: Protocol, plan: &Plan, state: &mut State, tree: &mut Tournament, t: u8)
    requires { ReleaseReady plan.now state.old t × IsTournamentOf plan.now.tasks tree.old state.old }
    ensures state_after { state.new ≡ after_of protocol plan.now state.old (Event.Release t) }
    ensures tree_after { IsTournamentOf plan.now.tasks tree.new state.new }
{
    let x = t as usize;
    state.head.accepted += 1;
    state.released[x] = state.head.accepted;
    state.delay[x] = 0;
    enter(plan, state);
    arrive(protocol, state, tree, t, kernel_of(plan.base[x]));
}
