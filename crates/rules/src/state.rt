ghost use Rattle.std.specs.Prelude.{◌≡◌};
ghost use Rattle.rules.specs.Schedulers.State.{fresh_of};

use crate::capacity::{MAX_LOCKS, MAX_TASKS, NOBODY};
use crate::priority::{KernelPriority, UserPriority};

// The counts of accepted events and of calls, who runs, and the two words shared with the kernel.
#[repr(C)]
#[derive(Clone, Copy)]
pub struct Head {
    pub accepted: u32,
    pub running: u8,
    pub user: UserPriority,
    pub next: KernelPriority,
    pub lazy: u32,
    pub eager: u32,
}

// RULES 7.1: the whole state, by value. Of a task: its release number (0 where it is not released), the
// priority that the kernel keeps for it, its delay, how many takes it has, the row of them and the
// words saved at them. Of a lock: its section's units, and the task that has it open,
// plus one, or 0. A row of takes, each by its lock, or of saved words is a number in base 256,
// newest first.
#[repr(C)]
#[derive(Clone, Copy)]
pub struct State {
    pub head: Head,
    pub released: [u32; MAX_TASKS],
    pub kept: [u8; MAX_TASKS],
    pub delay: [u16; MAX_TASKS],
    pub depth: [u8; MAX_TASKS],
    pub takes: [u64; MAX_TASKS],
    pub saved: [u64; MAX_TASKS],
    pub units: [u16; MAX_LOCKS],
    pub owner: [u8; MAX_LOCKS],
}

// Before the first event.
pub fn fresh() -> State
    ensures { result ≡ fresh_of }
{
    let head = Head {
        accepted: 0,
        running: NOBODY,
        user: UserPriority(0),
        next: KernelPriority(0),
        lazy: 0,
        eager: 0,
    };
    State {
        head: head,
        released: [0u32; MAX_TASKS],
        kept: [0u8; MAX_TASKS],
        delay: [0u16; MAX_TASKS],
        depth: [0u8; MAX_TASKS],
        takes: [0u64; MAX_TASKS],
        saved: [0u64; MAX_TASKS],
        units: [0u16; MAX_LOCKS],
        owner: [0u8; MAX_LOCKS],
    }
}
