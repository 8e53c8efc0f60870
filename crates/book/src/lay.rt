// RULES 4.2 to 4.7: a book laid into lent bytes that have room for it.
ghost use Rattle.std.specs.Prelude.{◌≡◌, ◌++◌, ◌+◌, ◌*◌, ◌≤◌, ◌<◌, length, drop};
ghost use Rattle.rules.specs.Numbers.Place.{stored};
ghost use Rattle.rules.specs.Books.Book.{contents};
ghost use Rattle.rules.specs.Books.Bytes.{entry_of};
ghost use Rattle.book.specs.Part.{index_of};
ghost use Rattle.book.specs.Records.{counts_in, book_in, RoomIn};
ghost use Rattle.book.specs.Room.{PartRoom, with_part};

use crate::entry::{CONTENTS, Part};
use crate::number::Field;

// The records of a book as numbers, low byte first: a task's two bytes, a lock's four, a use's two, an event's four.
#[derive(Clone, Copy)]
pub struct Records<'a> {
    pub tasks: &'a [u16],
    pub locks: &'a [u32],
    pub uses: &'a [u16],
    pub events: &'a [u32],
}

impl Records<'_> {
    // How many a part has.
    pub fn count(&self, part: Part) -> usize
        ensures { result ≡ counts_in self.now (index_of part) }
    {
        match part {
            Part::Tasks => self.tasks.len(),
            Part::Locks => self.locks.len(),
            Part::Uses => self.uses.len(),
            Part::Events => self.events.len(),
        }
    }
}

// A body of records from a place on; the answer is the place after it.
fn put_body<F: Field>(out: &mut [u8], from: usize, records: &[F]) -> usize
    requires { from + length (F.body_of records.now) ≤ length out.old }
    ensures value { result ≡ from + length (F.body_of records.now) }
    ensures out_after { out.new ≡ stored out.old from (F.body_of records.now) }
{
    let mut place = from;
    for &record in records {
        record.write(out, place);
        place += F::SIZE;
    }
    place
}

// A part's entry in the contents.
fn put_entry(out: &mut [u8], part: Part, count: usize, offset: usize)
    requires { (contents ≤ length out.old) × (count < 65536) × (offset < 4294967296) }
    ensures { out.new ≡ stored out.old (index_of part * 8) (entry_of (index_of part + 1) count offset) }
{
    let e = part.index();
    let i = e * 8;
    ((e + 1) as u16).write(out, i);
    (count as u16).write(out, i + 2);
    (offset as u32).write(out, i + 4);
}

// A part's body from a place on, and its entry; the answer is the place after the body.
fn put_part<F: Field>(out: &mut [u8], part: Part, from: usize, records: &[F]) -> usize
    requires { PartRoom out.old from (length records.now) (F.body_of records.now) }
    ensures value { result ≡ from + length (F.body_of records.now) }
    ensures out_after { out.new ≡ with_part out.old (index_of part) from (length records.now) (F.body_of records.now) }
{
    let next = put_body(out, from, records);
    put_entry(out, part, records.len(), from);
    next
}

// The four parts, each body where the one before it ends. The answer is the book's length.
pub fn lay(records: &Records, out: &mut [u8]) -> usize
    requires { RoomIn records.now out.old }
    ensures value { result ≡ length (book_in records.now) }
    ensures out_after { out.new ≡ book_in records.now ++ drop result out.old }
{
    let locks_at = put_part(out, Part::Tasks, CONTENTS, records.tasks);
    let uses_at = put_part(out, Part::Locks, locks_at, records.locks);
    let events_at = put_part(out, Part::Uses, uses_at, records.uses);
    put_part(out, Part::Events, events_at, records.events)
}
