// The records of the first three bodies, one number for a record, handed to the plan check.
ghost use Rattle.std.specs.Prelude.{◌≡◌, ◌+◌, ◌*◌, ◌≤◌, length, take, ◌++◌};
ghost use Rattle.rules.specs.Numbers.Place.{tabulate};
ghost use Rattle.rules.specs.Numbers.Refusal.{first_fault};
ghost use Rattle.rules.specs.Books.Book.{contents, count_at, body_at, tasks_of, locks_of, uses_of, event_checks, checked_as, checked_with};
ghost use Rattle.rules.specs.Books.Load.{load_of, loaded_with, load_checks};
ghost use Rattle.book.specs.Laid.{Laid};
ghost use Rattle.book.specs.Part.{index_of};

use crate::entry::{Part, body_at, count_at};
use crate::events;
use crate::number::Field;
use rules::answer::{Fault, Opened};
use rules::capacity::{MAX_LOCKS, MAX_TASKS, MAX_USES};
use rules::plan::Plan;

// As many numbers as there is room for, from a place on.
fn fill<F: Field>(b: &[u8], from: usize, records: &mut [F])
    requires { from + length records.old * F.SIZE ≤ length b.now }
    ensures { records.new ≡ tabulate (length records.old) (λ i. F.number_at b.now (from + i * F.SIZE)) }
{
    for (i, record) in records.iter_mut().enumerate() {
        *record = F::read(b, from + i * F::SIZE);
    }
}

// The records of a part, at the front of a table that has room for them.
fn read<'a, F: Field>(b: &[u8], part: Part, table: &'a mut [F]) -> &'a [F]
    requires contents_in_bounds { contents ≤ length b.now }
    requires body_in_bounds { body_at b.now (index_of part) + count_at b.now (index_of part) * F.SIZE ≤ length b.now }
    requires table_in_bounds { count_at b.now (index_of part) ≤ length table.old }
    ensures { result.now ≡ tabulate (count_at b.now (index_of part)) (λ i. F.number_at b.now (body_at b.now (index_of part) + i * F.SIZE)) }
{
    let records = &mut table[..count_at(b, part)];
    fill(b, body_at(b, part), records);
    records
}

fn load(b: &[u8]) -> Result<Plan, Fault>
    requires { Laid b.now }
    ensures { loaded_with result ≡ load_of (tasks_of b.now) (locks_of b.now) (uses_of b.now) }
{
    let mut tasks = [0u16; MAX_TASKS];
    let mut locks = [0u32; MAX_LOCKS];
    let mut uses = [0u16; MAX_USES];
    plan::load(
        read(b, Part::Tasks, &mut tasks),
        read(b, Part::Locks, &mut locks),
        read(b, Part::Uses, &mut uses),
    )
}

// The rest of the check of a book whose contents pass.
pub fn check(b: &[u8], room: usize) -> Result<Opened, Fault>
    requires { Laid b.now }
    ensures { checked_with result ≡ checked_as (first_fault (load_checks (tasks_of b.now) (locks_of b.now) (uses_of b.now) ++ event_checks
        b.now room)) b.now }
{
    let plan = load(b)?;
    events::check(b, room, plan)
}
