// RULES 6.5, 6.6: a book written from its records into a lent buffer, or the first offender of 2, 4 to 7, 24, 8
// and 23.
ghost use Rattle.std.specs.Prelude.{position, ◌≡◌, ◌+◌, ◌*◌, length};
ghost use Rattle.rules.specs.Numbers.Place.{at, any};
ghost use Rattle.rules.specs.Numbers.Refusal.{first_fault};
ghost use Rattle.rules.specs.Books.Event.{number_fault};
ghost use Rattle.rules.specs.Books.Plan.{count_fault};
ghost use Rattle.rules.specs.Books.Write.{write_of, wrote_with};
ghost use Rattle.book.specs.Part.{index_of};
ghost use Rattle.book.specs.Records.{counts_in, book_in, checks_in, FewIn};
ghost use Rattle.book.specs.Room.{last_checks};

use crate::entry::{CONTENTS, PARTS};
use crate::lay::{Records, lay};
use crate::number::Field;
use crate::record::number_fault;
use plan::count::count_fault;
use rules::answer::Fault;
use rules::refusal::Refusal;

// The first part whose count is out of range, by its place.
fn first_count(records: &Records) -> Option<usize>
    ensures { result ≡ position (λ part. count_fault (index_of part) (counts_in records.now (index_of part))) PARTS }
{
    PARTS
        .iter()
        .position(|&part| count_fault(part.index(), records.count(part)))
}

// Whether 8 refuses one of the events. The loop has no other end, so that several are asked at a time.
fn any_event(events: &[u32]) -> bool
    ensures { result ≡ any (λ k. number_fault (at events.now k)) (length events.now) }
{
    let mut found = false;
    for &event in events {
        found |= number_fault(event);
    }
    found
}

// The first event that 8 refuses. It is looked for only once it is known that there is one.
fn first_event(events: &[u32]) -> Option<usize>
    ensures { result ≡ position number_fault events.now }
{
    if any_event(events) {
        events.iter().position(|&event| number_fault(event))
    } else {
        None
    }
}

// The length of their book.
fn book_size(records: &Records) -> usize
    requires { FewIn records.now }
    ensures { result ≡ length (book_in records.now) }
{
    CONTENTS
        + records.tasks.len() * u16::SIZE
        + records.locks.len() * u32::SIZE
        + records.uses.len() * u16::SIZE
        + records.events.len() * u32::SIZE
}

// 8 and 23, for a book of this size and a buffer with so much room.
fn first_last(events: &[u32], size: usize, room: usize) -> Result<(), Fault>
    ensures { result ≡ first_fault (last_checks events.now size room) }
{
    match first_event(events) {
        Some(k) => Err(Fault {
            why: Refusal::WrongEvent,
            place: k,
        }),
        None if room < size => Err(Fault {
            why: Refusal::ShortBuffer,
            place: 0,
        }),
        None => Ok(()),
    }
}

// 2, 4 to 7, 24, 8 and 23, in this order, each at its first offender.
fn first_fault(records: &Records, room: usize) -> Result<(), Fault>
    ensures { result ≡ first_fault (checks_in records.now room) }
{
    if let Some(e) = first_count(records) {
        return Err(Fault {
            why: Refusal::WrongCount,
            place: e + 1,
        });
    }
    plan::load(records.tasks, records.locks, records.uses)?;
    first_last(records.events, book_size(records), room)
}

// The answer is the book's length, with the book at the start of the buffer; or a refusal, and the buffer as it was.
pub fn write(
    tasks: &[u16],
    locks: &[u32],
    uses: &[u16],
    events: &[u32],
    out: &mut [u8],
) -> Result<usize, Fault>
    ensures { wrote_with result out.new ≡ write_of tasks.now locks.now uses.now events.now
        out.old }
{
    let records = Records {
        tasks,
        locks,
        uses,
        events,
    };
    first_fault(&records, out.len())?;
    Ok(lay(&records, out))
}
