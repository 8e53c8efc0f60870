// A task's row of takes, each by its lock, or of the words that were saved at them: a number in base
// 256, newest first, with room for eight.
ghost use Rattle.std.specs.Prelude.{◌≡◌, ◌%◌, ◌^◌, ◌<◌};
ghost use Rattle.rules.specs.Numbers.Row.{has, newest, pushed, under};

use rules::priority::UserPriority;

pub fn newest_of(row: u64) -> u8
    ensures { result ≡ newest row }
{
    (row & 0xff) as u8
}

pub fn under_of(row: u64) -> u64
    ensures { result ≡ under row }
{
    row >> 8
}

// The row with x as its newest. Of a row of eight the oldest is lost: nobody asks for that.
pub fn push_on(row: u64, x: u8) -> u64
    ensures { (result ≡ pushed (row % 256 ^ 7) x) × (x < 256) }
{
    row << 8 | u64::from(x)
}

// Whether l is among the k newest of the row.
pub fn has_lock(row: u64, k: u8, l: u8) -> bool
    ensures { result ≡ has row k l }
{
    let mut rest = row;
    for _ in 0..k {
        if newest_of(rest) == l {
            return true;
        }
        rest = under_of(rest);
    }
    false
}

// The word that was saved last, and a row with one word more.
pub fn newest_word(row: u64) -> UserPriority
    ensures { result.0 ≡ newest row }
{
    UserPriority(newest_of(row))
}

pub fn push_word(row: u64, word: UserPriority) -> u64
    ensures { (result ≡ pushed (row % 256 ^ 7) word.0) × (word.0 < 256) }
{
    push_on(row, word.0)
}
