// What the rules give for a task: its rank, and the greatest of the kept priorities.
ghost use Rattle.std.specs.Prelude.{◌≡◌, ◌≤◌};
ghost use Rattle.rules.specs.Numbers.Capacity.{max_tasks};
ghost use Rattle.rules.specs.Numbers.Place.{at, greatest};
ghost use Rattle.rules.specs.Schedulers.Figures.{figures_of, rank_of};

use crate::priority::row_priority;
use figures::priority::{kernel_of, user_of};
use rules::capacity::MAX_TASKS;
use rules::plan::Plan;
use rules::priority::{KernelPriority, UserPriority};
use rules::state::State;

// A released task's priority, and 0 for any other, as where nobody runs.
#[tactic(auto, using(crate::proofs::Tests::turns), unfolding(rules::specs::Schedulers::Figures::rank_of, rules::specs::Schedulers::Figures::priority_of))]
pub fn rank_of(p: &Plan, s: &State, x: usize) -> UserPriority
    ensures { result.0 ≡ rank_of p.now (figures_of s.now) x }
{
    match s.released.get(x) {
        Some(number) if *number != 0 => {
            row_priority(user_of(p.base[x]), &p.ceiling, s.takes[x], s.depth[x])
        }
        _ => user_of(0),
    }
}

// The greatest kept priority of the first n tasks: what the next word has to be.
pub fn greatest_kept(n: usize, kept: &[u8; MAX_TASKS]) -> KernelPriority
    requires { n ≤ max_tasks }
    ensures { result.0 ≡ greatest (at kept.now) n }
{
    kernel_of(kept[..n].iter().fold(0, |top, k| top.max(*k)))
}
