// The event body, walked where it lies, one record at a time.
ghost use Rattle.std.specs.Prelude.{◌≡◌};
ghost use Rattle.rules.specs.Books.Book.{found_at};

use crate::number::Field;
use crate::record::{event_fault, event_of};
use rules::answer::Found;
use rules::refusal::Refusal;

// What stands at record k: an event and the next place, a record that 8 refuses, or the end.
pub fn cursor(body: &[u8], k: usize) -> Found
    ensures { result ≡ found_at body.now k }
{
    if k >= body.len() / 4 {
        return Found::End;
    }
    let i = k * 4;
    let kind = body[i];
    let id = body[i + 1];
    let amount = u16::read(body, i + 2);
    if event_fault(kind, id, amount) {
        Found::Refused(Refusal::WrongEvent, k)
    } else {
        Found::Got(event_of(kind, id, amount), k + 1)
    }
}
