// RULES 9.11: what an entry to the kernel starts with: a user word above the maximum of the task that
// runs is cut back to it.
ghost use Rattle.std.specs.Prelude.{◌≡◌};
ghost use Rattle.rules.specs.Schedulers.Lazy.{entering, words_of};
ghost use Rattle.kernel.specs.Acting.{IdleWord, with_words};

use figures::priority::{cut_to, kernel_of};
use rules::capacity::MAX_TASKS;
use rules::plan::Plan;
use rules::state::State;

// Nobody's word is 0, and there is nothing to cut.
pub fn enter(plan: &Plan, state: &mut State)
    requires { IdleWord state.old }
    ensures { state.new ≡ with_words state.old (entering plan.now.maximum (words_of state.old)) }
{
    let x = state.head.running as usize;
    if x < MAX_TASKS {
        state.head.user = cut_to(kernel_of(plan.maximum[x]), state.head.user);
    }
}
