// 24: a task may take a lock whose ceiling is above the task's maximum.
ghost use Rattle.std.specs.Prelude.{◌≡◌, ◌<◌, length};
ghost use Rattle.rules.specs.Numbers.Place.{at};
ghost use Rattle.rules.specs.Books.Plan.{maximum_fault};
ghost use Rattle.rules.specs.Books.Load.{task_maximum, lock_ceiling, use_task, use_lock, use_above};
ghost use Rattle.plan.specs.First.{first_place};
ghost use Rattle.plan.specs.Placed.{Placed};

use crate::record::{LockRecord, TaskRecord, UseRecord};

// Of a use, by the records of its task and its lock.
#[tactic(auto, using(rules::proofs::Numbers::Choice::tests), unfolding(rules::specs::Books::Plan::maximum_fault))]
fn use_above(tasks: &[u16], locks: &[u32], w: u16) -> bool
    requires { (use_task w < length tasks.now) × (use_lock w < length locks.now) }
    ensures { result ≡ maximum_fault (task_maximum (at tasks.now (use_task w))) (lock_ceiling (at locks.now (use_lock w))) }
{
    let u = UseRecord::from(w);
    let task = TaskRecord::from(tasks[usize::from(u.task)]);
    let lock = LockRecord::from(locks[usize::from(u.lock)]);
    task.maximum < lock.ceiling
}

// The first use at fault.
pub fn first_above(tasks: &[u16], locks: &[u32], uses: &[u16]) -> Option<usize>
    requires { Placed (length tasks.now) (length locks.now) uses.now }
    ensures { result ≡ first_place (use_above tasks.now locks.now uses.now) (length uses.now) }
{
    uses.iter().position(|&w| use_above(tasks, locks, w))
}
