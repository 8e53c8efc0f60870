// The tournament of a state's tasks, in an array of their keys.
ghost use Rattle.std.specs.Prelude.{◌≡◌, ℕ, ◌≤◌, ◌<◌, min, replicate};
ghost use Rattle.rules.specs.Numbers.Capacity.{max_tasks};
ghost use Rattle.rules.specs.Numbers.Place.{at, greatest};
ghost use Rattle.tournament.specs.Keys.{keys_of, tournament_of};
ghost use Rattle.tournament.specs.Tree.{TreeFrom, changed, inner, places, tree_of};

use crate::keys::key_of;
use rules::capacity::MAX_TASKS;

pub const PLACES: usize = 2 * MAX_TASKS - 1;

// How many tasks there are, and the array.
#[derive(Clone, Copy)]
pub struct Tournament {
    pub tasks: usize,
    pub keys: [u64; PLACES],
    ghost few: { tasks ≤ max_tasks },
}

// The keys of the first n tasks, at their places.
fn lay(keys: &mut [u64; PLACES], n: usize, released: &[u32; MAX_TASKS], kept: &[u8; MAX_TASKS])
    requires { (0 < n) × (n ≤ max_tasks) }
    ensures { keys.old ≡ replicate places 0
        → TreeFrom n (keys_of (at released.now) (at kept.now)) (inner n) keys.new }
{
    for t in (0..n).rev() {
        keys[n - 1 + t] = key_of(kept[t], released[t], t as u8);
    }
}

// The places before them, from the last one down to the root.
fn raise(keys: &mut [u64; PLACES], n: usize)
    requires { (0 < n) × (n ≤ max_tasks) }
    ensures { (f : ℕ → ℕ) → TreeFrom n f (inner n) keys.old → keys.new ≡ tree_of n f }
{
    for i in (0..n - 1).rev() {
        keys[i] = keys[2 * i + 1].max(keys[2 * i + 2]);
    }
}

// The key of t is another, in an array of n keys: what stands above it follows, and the greatest key is the
// answer. Places 2p + 1 and 2p + 2 stand below p, so 4p + 3 - i stands beside i. What was stored last is at
// hand in v. The place is halved at each level, so there is no range to go over.
pub fn put(keys: &mut [u64; PLACES], n: usize, t: usize, key: u64) -> u64
    ensures keys_after { (f : ℕ → ℕ) → n ≤ max_tasks → keys.old ≡ tree_of n f → keys.new ≡ tree_of n (changed f t key) }
    ensures root { (f : ℕ → ℕ) → n ≤ max_tasks → keys.old ≡ tree_of n f → result ≡ greatest (changed f t key) n }
{
    if MAX_TASKS < n {
        return 0;
    }
    if n <= t {
        return keys[0];
    }
    let mut i = n - 1 + t;
    let mut v = key;
    keys[i] = v;
    while i > 0 {
        let p = (i - 1) / 2;
        v = v.max(keys[4 * p + 3 - i]);
        keys[p] = v;
        i = p;
    }
    v
}

impl Tournament {
    // Of the first n tasks, by their release numbers and kept priorities.
    pub fn of(n: usize, released: &[u32; MAX_TASKS], kept: &[u8; MAX_TASKS]) -> Tournament
        ensures tasks { result.tasks ≡ min n max_tasks }
        ensures keys { result.keys ≡ tournament_of (min n max_tasks) released.now kept.now }
    {
        let tasks = n.min(MAX_TASKS);
        let mut keys = [0; PLACES];
        if 0 < tasks {
            lay(&mut keys, tasks, released, kept);
            raise(&mut keys, tasks);
        }
        Tournament { tasks, keys }
    }

    // The root: who runs next, and with which word.
    pub fn top(&self) -> u64
        ensures { result ≡ at self.now.keys 0 }
    {
        self.keys[0]
    }

    // The key of t is another, and the root is the answer.
    pub fn put(&mut self, t: usize, key: u64) -> u64
        ensures tasks { self.new.tasks ≡ self.old.tasks }
        ensures keys { (f : ℕ → ℕ) → self.old.keys ≡ tree_of self.old.tasks f
            → self.new.keys ≡ tree_of self.old.tasks (changed f t key) }
        ensures root { (f : ℕ → ℕ) → self.old.keys ≡ tree_of self.old.tasks f
            → result ≡ greatest (changed f t key) self.old.tasks }
    {
        put(&mut self.keys, self.tasks, t, key)
    }
}
