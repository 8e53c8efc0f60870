// RULES 6.3: the load of a plan from a lent table.
ghost use Rattle.std.specs.Prelude.{◌≡◌};
ghost use Rattle.rules.specs.Books.Load.{load_of, loaded_with};
ghost use Rattle.device.specs.Table.{numbers_of};
ghost use Rattle.device.specs.Device.{load_spelled};

use crate::table::{TaskRecord, load_table};
use rules::answer::Fault;
use rules::plan::{Plan, blank};

// The refusal's number and place; the plan, every figure 0 beside a refusal.
#[repr(C)]
#[derive(Clone, Copy)]
pub struct DeviceLoad {
    pub number: u8,
    pub place: usize,
    pub plan: Plan,
}

impl From<Result<Plan, Fault>> for DeviceLoad {
    ghost from_gives = { λ r d. d ≡ load_spelled (loaded_with r) };

    #[tactic(auto, unfolding(rules::specs::Books::Load::loaded_with, rules::specs::Numbers::Answer::verdict_number, rules::specs::Numbers::Answer::verdict_place))]
    fn from(loaded: Result<Plan, Fault>) -> DeviceLoad {
        match loaded {
            Ok(plan) => DeviceLoad {
                number: 0,
                place: 0,
                plan,
            },
            Err(Fault { why, place }) => DeviceLoad {
                number: u8::from(why),
                place,
                plan: blank(),
            },
        }
    }
}

// `load_table` under a name that a host links: 2, 4 to 7 and 24.
#[unsafe(no_mangle)]
pub extern "C" fn recorder_load_table(
    tasks: &[TaskRecord],
    locks: &[u32],
    uses: &[u16],
) -> DeviceLoad
    ensures { result ≡ load_spelled (load_of (numbers_of tasks.now) locks.now uses.now) }
{
    DeviceLoad::from(load_table(tasks, locks, uses))
}
