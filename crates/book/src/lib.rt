// RULES 4 to 6: a book, that is its contents (1 to 3), its plan (2, 4 to 7 and 24), its events where they
// lie (8), and the row space for them (9); and the writer of one (23).
#![tactic(auto)]

mod bodies;
mod contents;
pub mod cursor;
mod entry;
mod events;
mod lay;
pub mod look;
mod number;
pub mod reader;
pub mod record;
pub mod writer;

ghost use Rattle.std.specs.Prelude.{◌≡◌};
ghost use Rattle.rules.specs.Books.Book.{checked_of, checked_with};

use rules::answer::{Fault, Opened};

// The book's plan and the place of its event body, or the first offender of 1 to 9 and 24. Each event
// needs four bytes of room for its row.
pub fn check(b: &[u8], room: usize) -> Result<Opened, Fault>
    ensures { checked_with result ≡ checked_of b.now room }
{
    contents::first_fault(b)?;
    bodies::check(b, room)
}
