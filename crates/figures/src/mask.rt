// A set of locks as a number: bit l says that lock l is in it.
ghost use Rattle.std.specs.Prelude.{◌≡◌, ltb, if◌then◌else◌};
ghost use Rattle.rules.specs.Numbers.Capacity.{max_locks};
ghost use Rattle.rules.specs.Numbers.Mask.{has_bit, with_bit};

use rules::capacity::MAX_LOCKS;

// Whether lock l is in the set.
pub fn has_bit(mask: u32, l: u8) -> bool
    ensures { result ≡ has_bit mask l }
{
    (l as usize) < MAX_LOCKS && (mask >> l) % 2 == 1
}

// The set with lock l in it. No set has a lock past the last one.
pub fn with_bit(mask: u32, l: u8) -> u32
    ensures { result ≡ (if ltb l max_locks then with_bit mask l else mask) }
{
    if (l as usize) < MAX_LOCKS {
        mask | 1 << l
    } else {
        mask
    }
}
