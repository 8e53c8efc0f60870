// RULES 6 and 13.4: a plan from its records, and the bound on a task's delay.
#![tactic(auto)]

mod build;
mod ceilings;
pub mod count;
mod faults;
mod lower;
mod maxima;
mod obey;
mod record;
mod walk;

ghost use Rattle.std.specs.Prelude.{◌≡◌};
ghost use Rattle.rules.specs.Books.Load.{load_of, loaded_with};
ghost use Rattle.rules.specs.Demands.Bound.{bound_of};
ghost use Rattle.rules.specs.Soundness.SoundTest as SoundTest;

use build::built;
use count::count_fault;
use rules::answer::Fault;
use rules::plan::Plan;
use rules::refusal::Refusal;

// One number for a record, little-endian: a task's two bytes, a lock's four, a use's two. The answer
// is the plan, or the first offender of 2, 4 to 7 and 24.
pub fn load(tasks: &[u16], locks: &[u32], uses: &[u16]) -> Result<Plan, Fault>
    ensures { loaded_with result ≡ load_of tasks.now locks.now uses.now }
{
    faults::first_record(tasks, locks, uses)?;
    let plan = built(tasks, locks, uses);
    if let Some(place) = ceilings::first_wrong(&plan) {
        return Err(Fault {
            why: Refusal::WrongCeiling,
            place,
        });
    }
    if let Some(place) = maxima::first_above(tasks, locks, uses) {
        return Err(Fault {
            why: Refusal::AboveMaximum,
            place,
        });
    }
    Ok(plan)
}

// The bound on the delay of task t: the greatest limit of a lock that may hold it up.
pub fn bound(p: Plan, t: usize) -> u16
    ensures { result ≡ bound_of p t }
{
    lower::longest(&p, lower::base_of(&p, t))
}

// Whether a plan that is handed in obeys the rules, test by test.
#[tactic(auto, using(crate::proofs::Tests::all_and, crate::proofs::Tests::counts), unfolding(rules::specs::Soundness::SoundTest::obeys))]
pub fn obeys(p: Plan) -> bool
    ensures { result ≡ SoundTest.obeys p }
{
    !count_fault(0, p.tasks)
        && !count_fault(1, p.locks)
        && obey::tasks_obey(&p)
        && obey::locks_obey(&p)
        && obey::spare_obeys(&p)
}
