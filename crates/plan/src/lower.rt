// Locks that may hold up a task: of ceiling at least its base, with a user of lower base. Whatever
// the plan says of itself, only the places that it has are looked at.
ghost use Rattle.std.specs.Prelude.{◌≡◌, ◌<◌};
ghost use Rattle.rules.specs.Numbers.Capacity.{max_tasks, max_locks};
ghost use Rattle.rules.specs.Numbers.Place.{at};
ghost use Rattle.rules.specs.Demands.Bound.{longest_limit, lower_at, lower_user, may_block};

use figures::mask::has_bit;
use rules::capacity::{MAX_LOCKS, MAX_TASKS};
use rules::plan::Plan;

// The base of task t, and 0 past the last place.
pub fn base_of(p: &Plan, t: usize) -> u8
    ensures { result ≡ at p.now.base t }
{
    p.base.get(t).copied().unwrap_or(0)
}

// Whether task x may take lock l and has a base below b.
#[tactic(auto, unfolding(rules::specs::Demands::Bound::lower_at, rules::specs::Books::Plan::declares))]
fn lower_at(p: &Plan, b: u8, l: u8, x: usize) -> bool
    requires { x < max_tasks }
    ensures { result ≡ lower_at p.now b l x }
{
    has_bit(p.uses[x], l) && p.base[x] < b
}

// Whether lock l has a user of base below b.
fn lower_user(p: &Plan, b: u8, l: u8) -> bool
    ensures { result ≡ lower_user p.now b l }
{
    (0..p.tasks.min(MAX_TASKS)).any(|x| lower_at(p, b, l, x))
}

#[tactic(auto, using(rules::proofs::Numbers::Choice::tests), unfolding(rules::specs::Demands::Bound::may_block))]
fn may_block(p: &Plan, b: u8, l: usize) -> bool
    requires { l < max_locks }
    ensures { result ≡ may_block p.now b l }
{
    b <= p.ceiling[l] && lower_user(p, b, l as u8)
}

// The greatest limit of a lock that may hold up a task of base b, and 0 without one.
pub fn longest(p: &Plan, b: u8) -> u16
    ensures { result ≡ longest_limit p.now b }
{
    let mut top = 0u16;
    for l in 0..p.locks.min(MAX_LOCKS) {
        if may_block(p, b, l) {
            top = top.max(p.limit[l]);
        }
    }
    top
}
