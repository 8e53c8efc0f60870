// RULES 9.5: acquire.
ghost use Rattle.std.specs.Prelude.{◌≡◌};
ghost use Rattle.rules.specs.declared.protocol.Protocol.{Protocol};
ghost use Rattle.kernel.specs.Acting.{calls_at_acquire, told_of};
ghost use Rattle.kernel.specs.Ready.{AcquireReady};

use crate::calls::eager_calls;
use figures::priority::user_of;
use figures::row::{push_on, push_word};
use rules::event::Event;
use rules::plan::Plan;
use rules::state::State;

// The running task has a take of lock l more, and its word is saved and raised to the lock's ceiling.
pub fn acquire(plan: &Plan, state: &mut State, l: u8)
    requires { AcquireReady state.old l }
    ensures { (pr : Protocol) → state.new
        ≡ told_of pr plan.now state.old (Event.Acquire l) (calls_at_acquire plan.now state.old l) }
{
    let x = state.head.running as usize;
    let y = l as usize;
    let before = state.head.user;
    state.depth[x] += 1;
    state.takes[x] = push_on(state.takes[x], l);
    state.saved[x] = push_word(state.saved[x], before);
    state.owner[y] = state.head.running + 1;
    state.head.user = before.max(user_of(plan.ceiling[y]));
    state.head.accepted += 1;
    state.head.eager += eager_calls(before, state.head.user);
}
