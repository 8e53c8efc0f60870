// The plan of records that pass 2 and 4 to 6.
ghost use Rattle.std.specs.Prelude.{◌≡◌, ◌≤◌, length};
ghost use Rattle.rules.specs.Numbers.Capacity.{max_tasks, max_locks};
ghost use Rattle.plan.specs.Placed.{Placed};
ghost use Rattle.rules.specs.Books.Load.{plan_of};

use crate::record::{LockRecord, TaskRecord, UseRecord};
use figures::mask::with_bit;
use rules::capacity::{MAX_LOCKS, MAX_TASKS};
use rules::plan::Plan;

pub fn built(tasks: &[u16], locks: &[u32], uses: &[u16]) -> Plan
    requires tasks_len_bound { (length tasks.now ≤ max_tasks) × (length locks.now ≤ max_locks) }
    requires placed { Placed max_tasks max_locks uses.now }
    ensures { result ≡ plan_of tasks.now locks.now uses.now }
{
    let mut base = [0u8; MAX_TASKS];
    let mut maximum = [0u8; MAX_TASKS];
    for (t, &w) in tasks.iter().enumerate() {
        let task = TaskRecord::from(w);
        base[t] = task.base;
        maximum[t] = task.maximum;
    }
    let mut ceiling = [0u8; MAX_LOCKS];
    let mut limit = [0u16; MAX_LOCKS];
    for (l, &w) in locks.iter().enumerate() {
        let lock = LockRecord::from(w);
        ceiling[l] = lock.ceiling;
        limit[l] = lock.limit;
    }
    let mut masks = [0u32; MAX_TASKS];
    for &w in uses {
        let u = UseRecord::from(w);
        let t = usize::from(u.task);
        masks[t] = with_bit(masks[t], u.lock);
    }
    Plan {
        tasks: tasks.len(),
        locks: locks.len(),
        base,
        maximum,
        ceiling,
        limit,
        uses: masks,
    }
}
