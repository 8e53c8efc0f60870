// RULES 6.3: a thin loader over a lent table, which hands the numbers of its records to the plan check.
ghost use Rattle.std.specs.Prelude.{◌≡◌};
ghost use Rattle.rules.specs.Books.Load.{load_of, loaded_with};
ghost use Rattle.device.specs.Table.{numbers_of};

use rules::answer::Fault;
use rules::capacity::MAX_TASKS;
use rules::plan::Plan;

// One more than a plan may have: enough to see that there are too many.
const ROOM: usize = MAX_TASKS + 1;

// RULES 4.4: the two bytes of a task's record, as they lie in the table.
#[repr(C)]
#[derive(Clone, Copy)]
pub struct TaskRecord {
    pub base: u8,
    pub maximum: u8,
}

impl TaskRecord {
    ghost use Rattle.device.specs.Table.{word_of};

    // Its two bytes as one number.
    fn number(self) -> u16
        ensures { result ≡ word_of self }
    {
        u16::from_le_bytes([self.base, self.maximum])
    }
}

// The plan of a table of records with its locks and uses, or the first offender of 2,
// 4 to 7 and 24.
pub fn load_table(tasks: &[TaskRecord], locks: &[u32], uses: &[u16]) -> Result<Plan, Fault>
    ensures { loaded_with result ≡ load_of (numbers_of tasks.now) locks.now uses.now }
{
    let seen = &tasks[..tasks.len().min(ROOM)];
    let mut numbers = [0u16; ROOM];
    for (i, task) in seen.iter().enumerate() {
        numbers[i] = task.number();
    }
    plan::load(&numbers[..seen.len()], locks, uses)
}
