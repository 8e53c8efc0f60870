// RULES 9.6: unlock.
ghost use Rattle.std.specs.Prelude.{◌≡◌, ◌<◌};
ghost use Rattle.rules.specs.Numbers.Capacity.{max_locks, max_tasks};
ghost use Rattle.rules.specs.Numbers.Place.{at};
ghost use Rattle.rules.specs.Schedulers.Lazy.{lazy_call, words_of};
ghost use Rattle.tournament.specs.Tournament.{IsTournamentOf};
ghost use Rattle.kernel.specs.Acting.{calls_at_unlock, given_back, told_of};
ghost use Rattle.kernel.specs.Ready.{UnlockReady};

use crate::calls::eager_calls;
use crate::entry::enter;
use crate::switch::leave;
use figures::priority::calls_for;
use figures::row::{has_lock, newest_word, under_of};
use rules::event::Event;
use rules::plan::Plan;
use rules::protocol::Protocol;
use rules::state::State;
use tournament::tree::Tournament;

// The running task's newest take, which is of lock l, is given back, and the saved word is back. The
// section is over, unless the lock stays open: it has no units, and nobody has it open.
fn give_back(state: &mut State, l: u8)
    requires { (state.old.head.running < max_tasks) × (l < max_locks) × (0 < at state.old.depth state.old.head.running) }
    ensures { state.new ≡ given_back l state.old }
{
    let x = state.head.running as usize;
    let y = l as usize;
    let older = state.depth[x] - 1;
    let row = under_of(state.takes[x]);
    state.depth[x] = older;
    state.takes[x] = row;
    if !has_lock(row, older, l) {
        state.units[y] = 0;
        state.owner[y] = 0;
    }
    state.head.user = newest_word(state.saved[x]);
    state.saved[x] = under_of(state.saved[x]);
}

// Where the second word is strictly above the word that is back, the kernel is called once, which is an
// entry, and switches.
pub fn unlock(
    protocol: Protocol,
    plan: &Plan,
    state: &mut State,
    tree: &mut Tournament,
    l: u8,
) -> bool
    requires { UnlockReady state.old l × IsTournamentOf plan.now.tasks tree.old state.old }
    ensures call { result ≡ lazy_call (words_of state.old) (Event.Unlock l) }
    ensures state_after { state.new ≡ told_of protocol plan.now state.old (Event.Unlock l) (calls_at_unlock state.old) }
    ensures tree_after { IsTournamentOf plan.now.tasks tree.new state.new }
{
    let before = state.head.user;
    give_back(state, l);
    state.head.accepted += 1;
    state.head.eager += eager_calls(before, state.head.user);
    let call = calls_for(state.head.user, state.head.next);
    if call {
        state.head.lazy += 1;
        enter(plan, state);
        leave(protocol, state, tree);
    }
    call
}
