// RULES 4.8: a reader of the event body, which stays in the lent book: the bytes of the body and a
// place. Each function over it takes it apart for the cursor.
ghost use Rattle.std.specs.Prelude.{◌≡◌, drop};
ghost use Rattle.rules.specs.Books.Book.{found_at};
ghost use Rattle.book.specs.Reader.{reader_at};

use crate::cursor::cursor;
use rules::answer::Found;

#[derive(Clone, Copy)]
pub struct Reader<'a> {
    pub body: &'a [u8],
    pub place: usize,
}

// What stands at the reader's place: an event and the next place, a record that 8 refuses, or the end.
pub fn next<'a>(r: Reader<'a>) -> Found
    ensures { result ≡ found_at r.entry.body.now r.entry.place }
{
    cursor(r.body, r.place)
}

// The reader of the same bytes at another place.
pub fn moved<'a>(r: Reader<'a>, place: usize) -> Reader<'a>
    ensures { result ≡ reader_at r.entry place }
{
    Reader { place, ..r }
}

// The same as `next`, with plain parameters, for every other caller.
pub fn read(body: &[u8], place: usize) -> Found
    ensures { result ≡ found_at body.now place }
{
    next(Reader { body, place })
}

// Record k of the event body that starts at `events` in a lent book, as its check gives that place.
pub fn read_in(book: &[u8], events: usize, k: usize) -> Found
    ensures { result ≡ found_at (drop events book.now) k }
{
    match book.get(events..) {
        Some(body) => read(body, k),
        None => Found::End,
    }
}
