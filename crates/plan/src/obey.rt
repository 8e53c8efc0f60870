// Whether a plan that is handed in obeys 4 to 7 and 24, and holds 0 in its unused places.
ghost use Rattle.std.specs.Prelude.{◌≡◌, ◌≤◌, ◌<◌};
ghost use Rattle.rules.specs.Numbers.Capacity.{max_locks, max_tasks};
ghost use Rattle.rules.specs.Numbers.Place.{every};
ghost use Rattle.rules.specs.Soundness.SoundTest.{lock_obeys, spare_obeys, task_obeys};
ghost use Rattle.plan.specs.Shared.{SharedLocks};

use crate::ceilings::shared_locks;
use crate::walk::users_of;
use figures::mask::has_bit;
use figures::spare::spare;
use rules::plan::Plan;

#[tactic(auto, using(crate::proofs::Tests::task_said))]
fn task_obeys(p: &Plan, t: usize) -> bool
    requires { (t < max_tasks) × (p.now.locks ≤ max_locks) }
    ensures { result ≡ task_obeys p.now t }
{
    (p.base[t] != 0) & (p.base[t] <= p.maximum[t]) & (u64::from(p.uses[t]) < 1u64 << p.locks)
}

// Every task is asked, with no way out: so the compiler asks several at once.
pub fn tasks_obey(p: &Plan) -> bool
    requires { (p.now.tasks ≤ max_tasks) × (p.now.locks ≤ max_locks) }
    ensures { result ≡ every (task_obeys p.now) p.now.tasks }
{
    let mut right = true;
    for t in 0..p.tasks {
        right &= task_obeys(p, t);
    }
    right
}

fn lock_obeys(p: &Plan, shared: u32, l: usize) -> bool
    requires n_le_max_tasks { (p.now.tasks ≤ max_tasks) × (l < max_locks) }
    requires shared_value { SharedLocks p.now shared }
    ensures { result ≡ lock_obeys p.now l }
{
    let (ceiling, limit) = (p.ceiling[l], p.limit[l]);
    let users = users_of(p, l);
    ceiling != 0 && limit != 0 && has_bit(shared, l as u8) && ceiling == users.top && !users.above
}

pub fn locks_obey(p: &Plan) -> bool
    requires { (p.now.tasks ≤ max_tasks) × (p.now.locks ≤ max_locks) }
    ensures { result ≡ every (lock_obeys p.now) p.now.locks }
{
    let shared = shared_locks(p);
    (0..p.locks).all(|l| lock_obeys(p, shared, l))
}

#[tactic(auto, using(crate::proofs::Tests::all_and), unfolding(rules::specs::Soundness::SoundTest::spare_obeys))]
pub fn spare_obeys(p: &Plan) -> bool
    ensures { result ≡ spare_obeys p.now }
{
    spare(&p.base, p.tasks)
        && spare(&p.maximum, p.tasks)
        && spare(&p.uses, p.tasks)
        && spare(&p.ceiling, p.locks)
        && spare(&p.limit, p.locks)
}
