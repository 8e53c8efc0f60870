// The four parts of a book, in the order of their entries and of their bodies, and what the contents say of each.
ghost use Rattle.std.specs.Prelude.{◌≡◌, ◌*◌, ◌<◌, ◌≤◌, length, slice_get};
ghost use Rattle.rules.specs.Books.Book.{contents, kind_at, count_at, offset_at, size_of, body_at};
ghost use Rattle.book.specs.Part.{index_of};

use crate::number::Field;

// The length of the contents, and the place of the first body.
pub const CONTENTS: usize = 32;

#[derive(Clone, Copy)]
pub enum Part {
    Tasks,
    Locks,
    Uses,
    Events,
}

// All of them, in order.
pub const PARTS: [Part; 4] = [Part::Tasks, Part::Locks, Part::Uses, Part::Events];

impl Part {
    // Its place among them, from 0.
    pub fn index(self) -> usize
        ensures { (result ≡ index_of self) × (result < 4) }
    {
        self as usize
    }

    // The part at a place.
    pub fn at(index: usize) -> Option<Part>
        ensures { result ≡ slice_get PARTS index }
    {
        PARTS.get(index).copied()
    }

    // The bytes of one record.
    fn record_size(self) -> usize
        ensures { (result ≡ size_of (index_of self)) × (result ≤ 4) }
    {
        match self {
            Part::Tasks | Part::Uses => u16::SIZE,
            Part::Locks | Part::Events => u32::SIZE,
        }
    }
}

pub fn kind_at(b: &[u8], part: Part) -> usize
    requires { contents ≤ length b.now }
    ensures { result ≡ kind_at b.now (index_of part) }
{
    u16::read(b, part.index() * 8) as usize
}

pub fn count_at(b: &[u8], part: Part) -> usize
    requires { contents ≤ length b.now }
    ensures { (result ≡ count_at b.now (index_of part)) × (result < 65536) }
{
    u16::read(b, part.index() * 8 + 2) as usize
}

pub fn offset_at(b: &[u8], part: Part) -> usize
    requires { contents ≤ length b.now }
    ensures { result ≡ offset_at b.now (index_of part) }
{
    u32::read(b, part.index() * 8 + 4) as usize
}

// The bytes of a part's records.
fn body_size(b: &[u8], part: Part) -> usize
    requires { contents ≤ length b.now }
    ensures { (result ≡ count_at b.now (index_of part) * size_of (index_of part)) × (result < 262144) }
{
    count_at(b, part) * part.record_size()
}

// Where the first n bodies end, by their counts.
fn end_of(b: &[u8], n: usize) -> usize
    requires { (contents ≤ length b.now) × (n ≤ 4) }
    ensures { result ≡ body_at b.now n }
{
    let mut place = CONTENTS;
    for &part in &PARTS[..n] {
        place += body_size(b, part);
    }
    place
}

// Where the body of a part starts, by the counts before it.
pub fn body_at(b: &[u8], part: Part) -> usize
    requires { contents ≤ length b.now }
    ensures { result ≡ body_at b.now (index_of part) }
{
    end_of(b, part.index())
}

// Where the last body ends.
pub fn bodies_end(b: &[u8]) -> usize
    requires { contents ≤ length b.now }
    ensures { result ≡ body_at b.now 4 }
{
    end_of(b, 4)
}
