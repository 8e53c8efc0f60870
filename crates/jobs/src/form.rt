// RULES 20.1: the numbers of the form. specs/Grammar.antt names the same for the definitions.

// The most units of one work, and the greatest lock.
pub const MAX_UNITS: u32 = 65535;

pub const MAX_LOCK: u32 = 31;

// How many sections may stand one in another.
pub const LEVELS: usize = 8;
