// The priority of a task with a row of takes, and the words that were saved at them: both fall on the
// number of takes.
ghost use Rattle.std.specs.Prelude.{◌≡◌, ◌≤◌, ◌<◌, ◌^◌};
ghost use Rattle.rules.specs.Numbers.Capacity.{max_takes};
ghost use Rattle.rules.specs.Numbers.Place.{at};
ghost use Rattle.rules.specs.Numbers.Row.{priority, saves};

use figures::priority::user_of;
use figures::row::{newest_of, push_word, under_of};
use rules::capacity::MAX_LOCKS;
use rules::priority::UserPriority;

// What a table holds for lock l, and 0 where there is no such place.
pub fn at_lock(table: &[u8; MAX_LOCKS], l: u8) -> u8
    ensures { result ≡ at table.now l }
{
    table.get(l as usize).copied().unwrap_or(0)
}

// RULES 7.3: without takes the base; else the newest one's ceiling, or what the takes under it give,
// whichever is greater.
pub fn row_priority(base: UserPriority, ceiling: &[u8; MAX_LOCKS], row: u64, k: u8) -> UserPriority
    ensures { result.0 ≡ priority (at ceiling.now) base.0 row k }
{
    if k == 0 {
        base
    } else {
        let below = row_priority(base, ceiling, under_of(row), k - 1);
        user_of(at_lock(ceiling, newest_of(row))).max(below)
    }
}

// Beside each take the priority under it.
pub fn row_saves(base: UserPriority, ceiling: &[u8; MAX_LOCKS], row: u64, k: u8) -> u64
    requires { k ≤ max_takes }
    ensures { (result ≡ saves (at ceiling.now) base.0 row k) × (result < 256 ^ k) }
{
    if k == 0 {
        0
    } else {
        let rest = under_of(row);
        let below = row_saves(base, ceiling, rest, k - 1);
        push_word(below, row_priority(base, ceiling, rest, k - 1))
    }
}
