ghost use Rattle.std.specs.Prelude.{◌≡◌};
ghost use Rattle.rules.specs.Books.Load.{blank_plan};

use crate::capacity::{MAX_LOCKS, MAX_TASKS};

// RULES 3.5: a recorder's plan. A task or a lock is its place, from 0. Places past the last one hold 0.
// Bit l of a task's uses says that the task may take lock l.
#[repr(C)]
#[derive(Clone, Copy)]
pub struct Plan {
    pub tasks: usize,
    pub locks: usize,
    pub base: [u8; MAX_TASKS],
    pub maximum: [u8; MAX_TASKS],
    pub ceiling: [u8; MAX_LOCKS],
    pub limit: [u16; MAX_LOCKS],
    pub uses: [u32; MAX_TASKS],
}

// The plan beside a refusal: every figure 0.
pub fn blank() -> Plan
    ensures { result ≡ blank_plan }
{
    Plan {
        tasks: 0,
        locks: 0,
        base: [0u8; MAX_TASKS],
        maximum: [0u8; MAX_TASKS],
        ceiling: [0u8; MAX_LOCKS],
        limit: [0u16; MAX_LOCKS],
        uses: [0u32; MAX_TASKS],
    }
}
