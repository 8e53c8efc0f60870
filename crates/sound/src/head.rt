// Whether the counts, the running task and the two words are sound.
ghost use Rattle.std.specs.Prelude.{◌≡◌, ◌≤◌};
ghost use Rattle.rules.specs.Numbers.Capacity.{max_tasks};
ghost use Rattle.rules.specs.Schedulers.Figures.{figures_of};
ghost use Rattle.rules.specs.Schedulers.Lazy.{words_of};
ghost use Rattle.rules.specs.Soundness.SoundTest.{head_test, runs_test, second_test};
ghost use Rattle.sound.specs.TasksSound.{TasksSound};

use crate::rank::{greatest_kept, rank_of};
use figures::priority::at_most;
use rules::capacity::{MAX_ACCEPTED, NOBODY};
use rules::plan::Plan;
use rules::priority::{KernelPriority, UserPriority};
use rules::protocol::Protocol;
use rules::state::State;

// Nobody runs and none is released, or a released task runs.
#[tactic(auto, using(crate::proofs::Tests::turns), unfolding(rules::specs::Soundness::SoundTest::runs_test))]
fn runs_sound(p: &Plan, s: &State) -> bool
    requires { p.now.tasks ≤ max_tasks }
    ensures { result ≡ runs_test s.now.released p.now.tasks s.now.head.running }
{
    if s.head.running == NOBODY {
        s.released[..p.tasks].iter().all(|y| *y == 0)
    } else {
        let x = s.head.running as usize;
        x < p.tasks && 0 < s.released[x]
    }
}

// The next word is the greatest kept priority; a kernel word is at most the user word.
#[tactic(auto, using(crate::proofs::Tests::turns), unfolding(rules::specs::Soundness::SoundTest::second_test))]
fn second_sound(
    protocol: Protocol,
    second: KernelPriority,
    user: UserPriority,
    best: KernelPriority,
) -> bool
    ensures { result ≡ second_test protocol second.0 user.0 best.0 }
{
    match protocol {
        Protocol::Second => second == best,
        Protocol::First => at_most(second, user),
    }
}

// Where every task is sound. Who may not run has no row that is asked for a rank: it may be too long.
#[tactic(auto, using(crate::proofs::Tests::turns, crate::proofs::Whole::kept_same), unfolding(rules::specs::Soundness::SoundTest::head_test))]
pub fn head_sound(protocol: Protocol, p: &Plan, s: &State) -> bool
    requires { TasksSound p.now s.now }
    ensures { result ≡ head_test protocol p.now (figures_of s.now) (words_of s.now) }
{
    let h = &s.head;
    h.accepted <= MAX_ACCEPTED
        && h.eager <= h.accepted
        && h.lazy <= h.accepted
        && runs_sound(p, s)
        && h.user == rank_of(p, s, h.running as usize)
        && second_sound(protocol, h.next, h.user, greatest_kept(p.tasks, &s.kept))
}
