// The bound on a task's delay.
ghost use Rattle.std.specs.Prelude.{◌≡◌};
ghost use Rattle.rules.specs.Demands.Bound.{bound_of};
ghost use Rattle.rules.specs.Books.Book.{checked_of};
ghost use Rattle.device.specs.Device.{full_room};

use rules::capacity::MAX_EVENTS;

// The row space that a full-length book needs, so that no book is refused for want of it.
pub const FULL_ROOM: usize = MAX_EVENTS * 4;

// The bound for a task of the book's plan; 0 for a task that it has not, and for a book that is refused.
#[unsafe(no_mangle)]
pub extern "C" fn recorder_bound(book: &[u8], task: usize) -> u16
    ensures { result ≡ bound_of (checked_of book.now full_room).plan task }
{
    match book::check(book, FULL_ROOM) {
        Ok(opened) => plan::bound(opened.plan, task),
        Err(_) => 0,
    }
}
