// 7 and 24 of a plan that comes with a state, for one lock: all that its users say of it, in one walk over
// the tasks.
ghost use Rattle.std.specs.Prelude.{◌≡◌, ◌≤◌, ◌<◌};
ghost use Rattle.rules.specs.Numbers.Capacity.{max_tasks, max_locks};
ghost use Rattle.rules.specs.Books.Plan.{above_fault, users_base};

use crate::ceilings::if_user;
use rules::plan::Plan;

// The greatest base of its users, and whether its ceiling is above the maximum of one.
#[derive(Clone, Copy)]
pub struct Users {
    pub top: u8,
    pub above: bool,
}

// Every task is asked, with no way out: so the compiler asks several at once. A maximum or a ceiling counts
// by how far it is below 255, and `gap` is that of the least maximum of a user, so that both are the greatest
// of bytes.
pub fn users_of(p: &Plan, l: usize) -> Users
    requires { (p.now.tasks ≤ max_tasks) × (l < max_locks) }
    ensures { (result.top ≡ users_base p.now l) × (result.above ≡ above_fault p.now l) }
{
    let room = 255 - p.ceiling[l];
    let mut top = 0u8;
    let mut gap = 0u8;
    for x in 0..p.tasks {
        let uses = p.uses[x];
        top = top.max(if_user(p.base[x], uses, l as u8));
        gap = gap.max(if_user(255 - p.maximum[x], uses, l as u8));
    }
    Users {
        top,
        above: room < gap,
    }
}
