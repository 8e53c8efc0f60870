// Whether the figures of one task are sound.
ghost use Rattle.std.specs.Prelude.{◌≡◌, ◌≤◌, ◌<◌, eqb};
ghost use Rattle.rules.specs.Numbers.Capacity.{max_takes, max_tasks};
ghost use Rattle.rules.specs.Numbers.Place.{at, every};
ghost use Rattle.rules.specs.Schedulers.Figures.{figures_of};
ghost use Rattle.rules.specs.Schedulers.Lazy.{words_of};
ghost use Rattle.rules.specs.Soundness.Sound.{kept_of, saved_of};
ghost use Rattle.rules.specs.Soundness.SoundTest.{number_new, number_test, own_test, row_test, task_test};

use crate::priority::{at_lock, row_saves};
use crate::rank::rank_of;
use figures::mask::has_bit;
use figures::priority::{kernel_of, recorded, user_of};
use figures::row::{newest_of, under_of};
use rules::capacity::{MAX_DELAY, MAX_LOCKS, MAX_TAKES, MAX_TASKS};
use rules::plan::Plan;
use rules::state::State;

// Each of the k newest of a row is of one of m locks, declared; after them there is 0.
fn row_sound(m: usize, uses: u32, row: u64, k: u8) -> bool
    ensures { result ≡ row_test m uses row k }
{
    let mut rest = row;
    for _ in 0..k {
        let l = newest_of(rest);
        if m <= l as usize || !has_bit(uses, l) {
            return false;
        }
        rest = under_of(rest);
    }
    rest == 0
}

// Each of them has task x for its owner.
fn own_sound(owner: &[u8; MAX_LOCKS], x: usize, row: u64, k: u8) -> bool
    requires { x < max_tasks }
    ensures { result ≡ own_test owner.now x row k }
{
    let mut rest = row;
    for _ in 0..k {
        if at_lock(owner, newest_of(rest)) as usize != x + 1 {
            return false;
        }
        rest = under_of(rest);
    }
    true
}

// No task before x has the release number y. All are asked, with no way out: so the compiler asks
// several at once.
fn number_new(released: &[u32; MAX_TASKS], y: u32, x: usize) -> bool
    requires { x ≤ max_tasks }
    ensures { result ≡ number_new released.now y x }
{
    released[..x].iter().fold(true, |new, z| new & (*z != y))
}

// A task is not released and has no takes, or its release number is in range and no earlier
// task's.
#[tactic(auto, using(crate::proofs::Tests::turns), unfolding(rules::specs::Soundness::SoundTest::number_test))]
fn number_sound(s: &State, x: usize) -> bool
    requires { x < max_tasks }
    ensures { result ≡ number_test s.now.head.accepted s.now.released (at s.now.depth x) x }
{
    let y = s.released[x];
    if y == 0 {
        s.depth[x] == 0
    } else {
        y <= s.head.accepted && number_new(&s.released, y, x)
    }
}

// What is kept for a task is its rank, and nothing while it runs.
#[tactic(auto, using(crate::proofs::Tests::turns), unfolding(rules::specs::Soundness::Sound::kept_of))]
fn kept_sound(p: &Plan, s: &State, x: usize) -> bool
    requires { x < max_tasks }
    ensures { result ≡ eqb (at s.now.kept x) (kept_of p.now (figures_of s.now) s.now.head.running x) }
{
    let kept = kernel_of(s.kept[x]);
    if x == s.head.running as usize {
        kept == kernel_of(0)
    } else {
        kept == recorded(rank_of(p, s, x))
    }
}

// What is saved for a task is what its row gives.
#[tactic(auto, using(crate::proofs::Tests::turns), unfolding(rules::specs::Soundness::Sound::saved_of))]
fn saved_sound(p: &Plan, s: &State, x: usize) -> bool
    requires known { x < max_tasks }
    requires short { at s.now.depth x ≤ max_takes }
    ensures { result ≡ eqb (at s.now.saved x) (saved_of p.now (figures_of s.now) x) }
{
    s.saved[x] == row_saves(user_of(p.base[x]), &p.ceiling, s.takes[x], s.depth[x])
}

#[tactic(auto, using(crate::proofs::Tests::turns), unfolding(rules::specs::Soundness::SoundTest::task_test))]
fn task_sound(p: &Plan, s: &State, x: usize) -> bool
    requires { x < max_tasks }
    ensures { result ≡ task_test p.now (figures_of s.now) (words_of s.now) x }
{
    let k = s.depth[x];
    let row = s.takes[x];
    k <= MAX_TAKES
        && row_sound(p.locks, p.uses[x], row, k)
        && own_sound(&s.owner, x, row, k)
        && number_sound(s, x)
        && s.delay[x] <= MAX_DELAY
        && kept_sound(p, s, x)
        && saved_sound(p, s, x)
}

pub fn tasks_sound(p: &Plan, s: &State) -> bool
    requires { p.now.tasks ≤ max_tasks }
    ensures { result ≡ every (task_test p.now (figures_of s.now) (words_of s.now)) p.now.tasks }
{
    (0..p.tasks).all(|x| task_sound(p, s, x))
}
