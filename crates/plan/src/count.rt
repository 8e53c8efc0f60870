// 2: how many records an entry may have. Entries are 0 tasks, 1 locks, 2 uses, 3 events.
ghost use Rattle.std.specs.Prelude.{◌≡◌};
ghost use Rattle.rules.specs.Books.Plan.{most, count_fault};

use rules::capacity::{MAX_EVENTS, MAX_LOCKS, MAX_TASKS, MAX_USES};

// The most records that entry e may have.
#[tactic(auto, using(rules::proofs::Numbers::Choice::tests), unfolding(rules::specs::Books::Plan::most))]
pub fn most_of(e: usize) -> usize
    ensures { result ≡ most e }
{
    match e {
        0 => MAX_TASKS,
        1 => MAX_LOCKS,
        2 => MAX_USES,
        _ => MAX_EVENTS,
    }
}

// Whether n records are out of range for entry e.
#[tactic(auto, using(rules::proofs::Numbers::Choice::tests), unfolding(rules::specs::Books::Plan::count_fault))]
pub fn count_fault(e: usize, n: usize) -> bool
    ensures { result ≡ count_fault e n }
{
    (e == 0 && n == 0) || most_of(e) < n
}
