// RULES 6.5, 6.6: a book written from its records.
ghost use Rattle.std.specs.Prelude.{◌≡◌, List, ℕ};
ghost use Rattle.rules.specs.Books.Write.{write_of, wrote_with};
ghost use Rattle.device.specs.Device.{write_spelled};

use rules::answer::Fault;

// The refusal's number and place; the book's length, 0 beside a refusal.
#[repr(C)]
#[derive(Clone, Copy)]
pub struct DeviceWrite {
    pub number: u8,
    pub place: usize,
    pub length: usize,
}

impl From<Result<usize, Fault>> for DeviceWrite {
    ghost from_gives = { λ r d. (bytes : List ℕ) → d ≡ write_spelled (wrote_with r bytes) };

    #[tactic(auto, unfolding(rules::specs::Books::Write::wrote_with, rules::specs::Numbers::Answer::verdict_number, rules::specs::Numbers::Answer::verdict_place))]
    fn from(written: Result<usize, Fault>) -> DeviceWrite {
        match written {
            Ok(length) => DeviceWrite {
                number: 0,
                place: 0,
                length,
            },
            Err(Fault { why, place }) => DeviceWrite {
                number: u8::from(why),
                place,
                length: 0,
            },
        }
    }
}

// 2, 4 to 7, 24, 8 and 23; where one refuses, no byte of the buffer changes. Else the book stands at its
// start, and the bytes after the book stay.
#[unsafe(no_mangle)]
pub extern "C" fn recorder_write(
    tasks: &[u16],
    locks: &[u32],
    uses: &[u16],
    events: &[u32],
    buffer: &mut [u8],
) -> DeviceWrite
    ensures value { result ≡ write_spelled (write_of tasks.now locks.now uses.now events.now buffer.old) }
    ensures buffer_after { buffer.new ≡ (write_of tasks.now locks.now uses.now events.now
        buffer.old).bytes }
{
    DeviceWrite::from(book::writer::write(tasks, locks, uses, events, buffer))
}
