// RULES 9.10: the kernel's switch. The greatest kept priority runs, ties to the earlier release. The
// tournament beside the kept priorities says who that is, and then who is next.
ghost use Rattle.std.specs.Prelude.{◌≡◌, ℕ, ◌≤◌, set};
ghost use Rattle.rules.specs.Numbers.Capacity.{max_tasks};
ghost use Rattle.rules.specs.Numbers.Place.{at};
ghost use Rattle.rules.specs.Schedulers.Elect.{elected};
ghost use Rattle.rules.specs.Schedulers.Lazy.{best_kept, leaves, switched, words_of};
ghost use Rattle.tournament.specs.Keys.{root_of};
ghost use Rattle.tournament.specs.Tournament.{IsTournamentOf};
ghost use Rattle.kernel.specs.Acting.{with_words};

use crate::protocol::second_word;
use figures::priority::{kernel_byte, kernel_of, recorded, shown};
use rules::capacity::MAX_TASKS;
use rules::priority::KernelPriority;
use rules::protocol::Protocol;
use rules::state::State;
use tournament::fits::{all_bytes, all_words};
use tournament::keys::{key_of, who_of, word_of};
use tournament::tree::Tournament;

// The kernel keeps a priority for task t, and the tournament follows; for nobody it keeps none. The
// tournament's root is the answer.
pub fn keep(state: &mut State, tree: &mut Tournament, t: u8, priority: KernelPriority) -> u64
    requires { IsTournamentOf tree.old.tasks tree.old state.old }
    ensures state_after { state.new ≡ record state.old { kept = set state.old.kept t priority.0 } }
    ensures tree_after { IsTournamentOf tree.old.tasks tree.new state.new }
    ensures root { result ≡ root_of tree.old.tasks state.new.released state.new.kept }
{
    let x = t as usize;
    if x < MAX_TASKS {
        let byte = kernel_byte(priority);
        state.kept[x] = byte;
        tree.put(x, key_of(byte, state.released[x], t))
    } else {
        tree.top()
    }
}

// The task of greatest kept priority, ties to the earlier release, by the tournament's root.
fn elect(state: &State, root: u64) -> u8
    ensures { (n : ℕ) → n ≤ max_tasks → root ≡ root_of n state.now.released state.now.kept
        → result ≡ elected (at state.now.released) (at state.now.kept) n }
{
    all_words(&state.released);
    who_of(root)
}

// The greatest kept priority, by the same.
fn best_by(state: &State, root: u64) -> KernelPriority
    ensures { (n : ℕ) → n ≤ max_tasks → root ≡ root_of n state.now.released state.now.kept
        → result.0 ≡ best_kept state.now.kept n }
{
    all_words(&state.released);
    all_bytes(&state.kept);
    kernel_of(word_of(root))
}

// The same, by the tournament.
pub fn best(state: &State, tree: &Tournament) -> KernelPriority
    requires { IsTournamentOf tree.now.tasks tree.now state.now }
    ensures { result.0 ≡ best_kept state.now.kept tree.now.tasks }
{
    best_by(state, tree.top())
}

// The task that is elected runs: the priority that is kept for it becomes the user word, and the kept one
// is 0 until the task leaves. Nobody has none.
fn run(protocol: Protocol, state: &mut State, tree: &mut Tournament, root: u64)
    requires { IsTournamentOf tree.old.tasks tree.old state.old
        × (root ≡ root_of tree.old.tasks state.old.released state.old.kept) }
    ensures state_after { state.new ≡ with_words state.old
        (switched protocol tree.old.tasks state.old.released state.old.kept (words_of state.old)) }
    ensures tree_after { IsTournamentOf tree.old.tasks tree.new state.new }
{
    let q = elect(state, root);
    state.head.running = q;
    state.head.user = shown(best_by(state, root));
    let rest = keep(state, tree, q, KernelPriority(0));
    state.head.next = second_word(protocol, state.head.user, best_by(state, rest));
}

// The same, with the root as it stands.
pub fn switch(protocol: Protocol, state: &mut State, tree: &mut Tournament)
    requires { IsTournamentOf tree.old.tasks tree.old state.old }
    ensures state_after { state.new ≡ with_words state.old
        (switched protocol tree.old.tasks state.old.released state.old.kept (words_of state.old)) }
    ensures tree_after { IsTournamentOf tree.old.tasks tree.new state.new }
{
    let root = tree.top();
    run(protocol, state, tree, root);
}

// The running task leaves with its word, and the kernel switches.
pub fn leave(protocol: Protocol, state: &mut State, tree: &mut Tournament)
    requires { IsTournamentOf tree.old.tasks tree.old state.old }
    ensures state_after { state.new ≡ with_words state.old
        (leaves protocol tree.old.tasks state.old.released (words_of state.old)) }
    ensures tree_after { IsTournamentOf tree.old.tasks tree.new state.new }
{
    let running = state.head.running;
    let word = recorded(state.head.user);
    let root = keep(state, tree, running, word);
    run(protocol, state, tree, root);
}
