// The first offender of 2, 4, 5 and 6.
ghost use Rattle.std.specs.Prelude.{◌≡◌, ◌<◌, length};
ghost use Rattle.rules.specs.Books.Load.{count_fault_of, lock_fault_at, record_checks, task_fault_at, use_fault};
ghost use Rattle.rules.specs.Numbers.Refusal.{first_fault};
ghost use Rattle.plan.specs.First.{first_place};

use crate::count::count_fault;
use crate::record::{LockRecord, TaskRecord, UseRecord};
use rules::answer::Fault;
use rules::refusal::Refusal;

// 2, of n tasks, m locks and u uses.
fn first_count(n: usize, m: usize, u: usize) -> Option<usize>
    ensures { result ≡ first_place (count_fault_of n m u) 3 }
{
    let counts = [n, m, u];
    (0..3).find(|&e| count_fault(e, counts[e]))
}

// 4
fn first_task(tasks: &[u16]) -> Option<usize>
    ensures { result ≡ first_place (task_fault_at tasks.now) (length tasks.now) }
{
    tasks.iter().position(|&w| TaskRecord::from(w).is_wrong())
}

// 5
fn first_lock(locks: &[u32]) -> Option<usize>
    ensures { result ≡ first_place (lock_fault_at locks.now) (length locks.now) }
{
    locks.iter().position(|&w| LockRecord::from(w).is_wrong())
}

// 6, of use i: its task or its lock is not there, or it does not come after the use before it.
#[tactic(auto, using(rules::proofs::Numbers::Choice::tests), unfolding(rules::specs::Books::Load::use_fault))]
fn use_fault(n: usize, m: usize, uses: &[u16], i: usize) -> bool
    requires { i < length uses.now }
    ensures { result ≡ use_fault n m uses.now i }
{
    let u = UseRecord::from(uses[i]);
    n <= usize::from(u.task)
        || m <= usize::from(u.lock)
        || (0 < i && u.key() <= UseRecord::from(uses[i - 1]).key())
}

fn first_use(n: usize, m: usize, uses: &[u16]) -> Option<usize>
    ensures { result ≡ first_place (use_fault n m uses.now) (length uses.now) }
{
    (0..uses.len()).find(|&i| use_fault(n, m, uses, i))
}

// 2, 4, 5 and 6, in this order, each at its first offender.
pub fn first_record(tasks: &[u16], locks: &[u32], uses: &[u16]) -> Result<(), Fault>
    ensures { result ≡ first_fault (record_checks tasks.now locks.now uses.now) }
{
    let n = tasks.len();
    let m = locks.len();
    if let Some(e) = first_count(n, m, uses.len()) {
        return Err(Fault {
            why: Refusal::WrongCount,
            place: e + 1,
        });
    }
    if let Some(t) = first_task(tasks) {
        return Err(Fault {
            why: Refusal::WrongTask,
            place: t,
        });
    }
    if let Some(l) = first_lock(locks) {
        return Err(Fault {
            why: Refusal::WrongLock,
            place: l,
        });
    }
    if let Some(u) = first_use(n, m, uses) {
        return Err(Fault {
            why: Refusal::WrongUse,
            place: u,
        });
    }
    Ok(())
}
