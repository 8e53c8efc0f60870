// RULES 9.7: work.
ghost use Rattle.std.specs.Prelude.{◌≡◌, ◌≤◌, ◌<◌};
ghost use Rattle.rules.specs.Numbers.Capacity.{max_locks, max_tasks};
ghost use Rattle.rules.specs.Numbers.Place.{renewed};
ghost use Rattle.rules.specs.Schedulers.Figures.{figures_of};
ghost use Rattle.rules.specs.Schedulers.FiguresAfter.{delayed};
ghost use Rattle.tournament.specs.Tournament.{IsTournamentOf};
ghost use Rattle.kernel.specs.Acting.{worked};
ghost use Rattle.kernel.specs.Ready.{WorkReady};
ghost use Rattle.kernel.specs.Work.{InRow, charged_row, waited_by};

use crate::switch::best;
use figures::priority::kernel_of;
use figures::row::{has_lock, newest_of, under_of};
use rules::capacity::MAX_LOCKS;
use rules::plan::Plan;
use rules::state::State;
use tournament::tree::Tournament;

// The delay d of a task of release number y and base q after a units by one of base b. One test for both: so
// the compiler chooses once, and for several tasks at a time.
fn delay_of(y: u32, q: u8, b: u8, d: u16, a: u16) -> u16
    ensures { result ≡ waited_by y q b d a }
{
    let more = d.saturating_add(a);
    if (0 < y) & (b < q) { more } else { d }
}

// Every released task of greater base than the running one's waits a units more.
fn delays(plan: &Plan, state: &mut State, a: u16)
    requires { (plan.now.tasks ≤ max_tasks) × (state.old.head.running < max_tasks) }
    ensures { state.new ≡ record state.old {
      delay = renewed state.old.delay (delayed plan.now (figures_of state.old) state.old.head.running a) plan.now.tasks;
    } }
{
    let b = plan.base[state.head.running as usize];
    for t in 0..plan.tasks {
        state.delay[t] = delay_of(state.released[t], plan.base[t], b, state.delay[t], a);
    }
}

// The same, and without a walk where nothing is kept above the running task's base: then nobody of greater
// base is released (RULES 8.13).
fn waits(plan: &Plan, state: &mut State, tree: &Tournament, a: u16)
    requires { WorkReady plan.now state.old × IsTournamentOf plan.now.tasks tree.now state.old }
    ensures { state.new ≡ record state.old {
      delay = renewed state.old.delay (delayed plan.now (figures_of state.old) state.old.head.running a) plan.now.tasks;
    } }
{
    if kernel_of(plan.base[state.head.running as usize]) < best(state, tree) {
        delays(plan, state, a);
    }
}

// A units more for the section of the lock of each of the k newest takes of a row: they count at its oldest
// take.
fn charge(units: &mut [u16; MAX_LOCKS], row: u64, k: u8, a: u16)
    requires { InRow max_locks row k }
    ensures { units.new ≡ charged_row units.old a row k }
{
    let mut left = row;
    for older in (0..k).rev() {
        let l = newest_of(left);
        left = under_of(left);
        if !has_lock(left, older, l) {
            let y = l as usize;
            units[y] = units[y].saturating_add(a);
        }
    }
}

// The running task works a units: they count once for each lock that it has open, and as delay for every
// released task of greater base.
pub fn work(plan: &Plan, state: &mut State, tree: &Tournament, a: u16)
    requires { WorkReady plan.now state.old × IsTournamentOf plan.now.tasks tree.now state.old }
    ensures { state.new ≡ worked plan.now state.old a }
{
    let x = state.head.running as usize;
    waits(plan, state, tree, a);
    charge(&mut state.units, state.takes[x], state.depth[x], a);
    state.head.accepted += 1;
}
