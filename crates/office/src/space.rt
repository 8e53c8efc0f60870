// Room for a text, and for one byte more, which shows that it has too many; also for what is said of a replay.
ghost use Rattle.std.specs.Prelude.{◌≡◌, ◌+◌, length};
ghost use Rattle.office.specs.Compose.{text_space};

use rules::capacity::MAX_EVENTS;

// Four row bytes for each event that a book may have.
pub(crate) const ROW_SPACE: usize = MAX_EVENTS * 4;

// The most bytes that a text may have.
pub const TEXT_SPACE: usize = 1048576;

const ROOM: usize = TEXT_SPACE + 1;

// Zeros. A function of its own, since callers are not to count them.
pub fn text_room() -> [u8; 1048577]
    ensures { text_space + 1 ≡ length result }
{
    [0u8; ROOM]
}
