// 7: a lock has fewer than two users, or its ceiling is not the highest base of its users.
ghost use Rattle.std.specs.Prelude.{◌≡◌, ℕ, ◌<◌, ◌≤◌, leb, if◌then◌else◌};
ghost use Rattle.rules.specs.Numbers.Capacity.{max_tasks, max_locks};
ghost use Rattle.rules.specs.Numbers.Mask.{has_bit};
ghost use Rattle.rules.specs.Books.Plan.{ceiling_fault, users_base};
ghost use Rattle.plan.specs.First.{first_place};
ghost use Rattle.plan.specs.Shared.{SharedLocks, shared_by};

use figures::mask::has_bit;
use rules::plan::Plan;

// The locks that two tasks may take, as a set: one walk over the tasks for all locks.
pub fn shared_locks(p: &Plan) -> u32
    requires { p.now.tasks ≤ max_tasks }
    ensures walked { result ≡ shared_by p.now.tasks p.now.uses }
    ensures shares { SharedLocks p.now result }
{
    let mut used = 0u32;
    let mut shared = 0u32;
    for &set in &p.uses[..p.tasks] {
        shared |= used & set;
        used |= set;
    }
    shared
}

// A number of a task that may take the locks of this set, if lock l is one of them, and 0 if not.
#[tactic(auto, using(rules::proofs::Numbers::Choice::tests))]
pub fn if_user(number: u8, uses: u32, l: u8) -> u8
    ensures { result ≡ (if has_bit uses l then number else 0) }
{
    if has_bit(uses, l) { number } else { 0 }
}

// The greatest base among the users of lock l, and 0 without any. Every task is asked, with no way
// out: so the compiler asks several at once.
fn users_base(p: &Plan, l: u8) -> u8
    requires { p.now.tasks ≤ max_tasks }
    ensures { result ≡ users_base p.now l }
{
    let mut top = 0u8;
    for x in 0..p.tasks {
        top = top.max(if_user(p.base[x], p.uses[x], l));
    }
    top
}

fn wrong_ceiling(p: &Plan, shared: u32, l: usize) -> bool
    requires n_le_max_tasks { (p.now.tasks ≤ max_tasks) × (l < max_locks) }
    requires shared_value { SharedLocks p.now shared }
    ensures { result ≡ ceiling_fault p.now l }
{
    !has_bit(shared, l as u8) || p.ceiling[l] != users_base(p, l as u8)
}

// The first lock at fault.
pub fn first_wrong(p: &Plan) -> Option<usize>
    requires { (p.now.tasks ≤ max_tasks) × (p.now.locks ≤ max_locks) }
    ensures { result ≡ first_place (ceiling_fault p.now) p.now.locks }
{
    let shared = shared_locks(p);
    (0..p.locks).find(|&l| wrong_ceiling(p, shared, l))
}
