// What stands in a book, whatever its bytes are: an entry of its contents, and the record k of each part as one number. It is
// 0 where the book is too short to have it, as `specs/Look.antt` says, and no `Option`: what is shown of a short book is 0.
ghost use Rattle.std.specs.Prelude.{◌≡◌, Option};
ghost use Rattle.book.specs.Look.{entry_in, body_in, record_in, task_in, lock_in, use_in, event_in};
ghost use Rattle.book.specs.Part.{index_of};

use crate::entry::{CONTENTS, Part, body_at, count_at, kind_at, offset_at};
use crate::number::Field;

#[derive(Clone, Copy)]
pub struct Entry {
    pub kind: usize,
    pub count: usize,
    pub offset: usize,
}

// Entry e, from 0 to 3.
pub fn entry_at(b: &[u8], e: usize) -> Entry
    ensures { result ≡ entry_in b.now e }
{
    match Part::at(e) {
        Some(part) if b.len() >= CONTENTS => Entry {
            kind: kind_at(b, part),
            count: count_at(b, part),
            offset: offset_at(b, part),
        },
        _ => Entry {
            kind: 0,
            count: 0,
            offset: 0,
        },
    }
}

// Where the body of a part starts; the book's end where it has no contents.
fn body(b: &[u8], part: Part) -> usize
    ensures { result ≡ body_in b.now (index_of part) }
{
    if b.len() < CONTENTS {
        b.len()
    } else {
        body_at(b, part)
    }
}

// Record k of a part.
fn record<F: Field>(b: &[u8], part: Part, k: usize) -> Option<F>
    ensures { result ≡ record_in F.SIZE (F.number_at b.now) b.now (body_in b.now (index_of part)) k }
{
    let from = body(b, part);
    let count = b.len().saturating_sub(from) / F::SIZE;
    if k < count {
        Some(F::read(b, from + k * F::SIZE))
    } else {
        None
    }
}

pub fn task(b: &[u8], k: usize) -> u32
    ensures { result ≡ task_in b.now k }
{
    u32::from(record::<u16>(b, Part::Tasks, k).unwrap_or(0))
}

pub fn lock(b: &[u8], k: usize) -> u32
    ensures { result ≡ lock_in b.now k }
{
    record(b, Part::Locks, k).unwrap_or(0)
}

pub fn usage(b: &[u8], k: usize) -> u32
    ensures { result ≡ use_in b.now k }
{
    u32::from(record::<u16>(b, Part::Uses, k).unwrap_or(0))
}

pub fn event(b: &[u8], k: usize) -> u32
    ensures { result ≡ event_in b.now k }
{
    record(b, Part::Events, k).unwrap_or(0)
}
