// Whether the figures of one lock are sound. That each task has its open locks in its own name is
// tested with the tasks; so of a lock only the task that is named for it is asked.
ghost use Rattle.std.specs.Prelude.{◌≡◌, ◌<◌, eqb};
ghost use Rattle.rules.specs.Numbers.Capacity.{max_locks};
ghost use Rattle.rules.specs.Numbers.Place.{at, every};
ghost use Rattle.rules.specs.Schedulers.Figures.{figures_of};
ghost use Rattle.rules.specs.Schedulers.Lazy.{words_of};
ghost use Rattle.rules.specs.Soundness.Sound.{owner_of};
ghost use Rattle.rules.specs.Soundness.SoundTest.{lock_test};
ghost use Rattle.sound.specs.TasksSound.{TasksSound};

use figures::row::has_lock;
use rules::plan::Plan;
use rules::state::State;

// Nobody is named, or one of the plan's tasks that has lock l open.
fn owner_sound(p: &Plan, s: &State, l: usize) -> bool
    requires tasks { TasksSound p.now s.now }
    requires known { l < max_locks }
    ensures { result ≡ eqb (at s.now.owner l) (owner_of (figures_of s.now) p.now.tasks l) }
{
    let o = s.owner[l] as usize;
    o == 0 || (o <= p.tasks && has_lock(s.takes[o - 1], s.depth[o - 1], l as u8))
}

// Its owner is named rightly, and its units are within its limit, 0 where it is closed.
#[tactic(auto, using(crate::proofs::Tests::turns), unfolding(rules::specs::Soundness::SoundTest::lock_test))]
fn lock_sound(p: &Plan, s: &State, l: usize) -> bool
    requires tasks { TasksSound p.now s.now }
    requires known { l < max_locks }
    ensures { result ≡ lock_test p.now (figures_of s.now) (words_of s.now) l }
{
    owner_sound(p, s, l) && s.units[l] <= p.limit[l] && (s.owner[l] != 0 || s.units[l] == 0)
}

// Where every task is sound.
pub fn locks_sound(p: &Plan, s: &State) -> bool
    requires { TasksSound p.now s.now }
    ensures { result ≡ every (lock_test p.now (figures_of s.now) (words_of s.now)) p.now.locks }
{
    (0..p.locks).all(|l| lock_sound(p, s, l))
}
