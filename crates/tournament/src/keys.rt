// A task's key in the tournament: its kept priority, then the complement of its release number and of
// its own number, 32 and 8 bits.
ghost use Rattle.std.specs.Prelude.{◌≡◌};
ghost use Rattle.tournament.specs.Keys.{key_of, who_of, word_of};

use rules::capacity::NOBODY;

// What stands below a kept priority in a key is below this, 2 ^ 40.
const ORDERS: u64 = 1 << 40;

pub fn key_of(kept: u8, released: u32, t: u8) -> u64
    ensures { result ≡ key_of kept released t }
{
    let order = u64::from(released) * 256 + u64::from(t);
    if kept == 0 {
        0
    } else {
        u64::from(kept) * ORDERS + (ORDERS - 1 - order)
    }
}

// The task of a key, and nobody of the key 0.
pub fn who_of(key: u64) -> u8
    ensures { result ≡ who_of key }
{
    NOBODY - (key % 256) as u8
}

// The kept priority of a key.
pub fn word_of(key: u64) -> u8
    ensures { result ≡ word_of key }
{
    (key / ORDERS % 256) as u8
}
