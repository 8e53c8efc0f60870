// RULES 2: how much the recorder holds. specs/Numbers/Capacity.antt names the same numbers for the
// definitions, and include/recorder.h for C. That a set of locks has 32 bits and a row eight bytes is
// the width of their numbers, in crates/figures.

pub const MAX_TASKS: usize = 200;

pub const MAX_LOCKS: usize = 32;

pub const MAX_USES: usize = 6400;

pub const MAX_EVENTS: usize = 12000;

// Takes that one task may have at a time, of one lock or of several.
pub const MAX_TAKES: u8 = 8;

// Events that are accepted before a state is exhausted.
pub const MAX_ACCEPTED: u32 = 1000000;

// Where the count of a delay sticks.
pub const MAX_DELAY: u16 = 65535;

// The running task's byte where nobody runs.
pub const NOBODY: u8 = 255;
