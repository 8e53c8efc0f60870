// 8 and 9: the events where they lie, and the row space for them.
ghost use Rattle.std.specs.Prelude.{◌≡◌, ◌<◌, ◌/◌, length, position};
ghost use Rattle.std.specs.List.{range_with_len};
ghost use Rattle.rules.specs.Numbers.Place.{any};
ghost use Rattle.rules.specs.Numbers.Refusal.{first_fault};
ghost use Rattle.rules.specs.Books.Book.{record_fault, plan_in, event_checks, checked_as, checked_with};
ghost use Rattle.book.specs.Laid.{Laid};

use crate::entry::{Part, body_at};
use crate::number::Field;
use crate::record::event_fault;
use rules::answer::{Fault, Opened};
use rules::plan::Plan;
use rules::refusal::Refusal;

// Whether 8 refuses record k of a body.
fn fault_at(body: &[u8], k: usize) -> bool
    requires { k < length body.now / 4 }
    ensures { result ≡ record_fault body.now k }
{
    let i = k * 4;
    event_fault(body[i], body[i + 1], u16::read(body, i + 2))
}

// Whether 8 refuses one of the records. The loop has no other end, so that several are asked at a time.
fn any_fault(body: &[u8]) -> bool
    ensures { result ≡ any (record_fault body.now) (length body.now / 4) }
{
    let mut found = false;
    for k in 0..body.len() / 4 {
        found |= fault_at(body, k);
    }
    found
}

// The first record of a body that 8 refuses. It is looked for only once it is known that there is one.
fn first_fault(body: &[u8]) -> Option<usize>
    ensures { result ≡ position (record_fault body.now) (range_with_len 0 (length body.now / 4)) }
{
    if any_fault(body) {
        (0..body.len() / 4).position(|k| fault_at(body, k))
    } else {
        None
    }
}

// The rest of the check of a book whose plan is loaded.
pub fn check(b: &[u8], room: usize, plan: Plan) -> Result<Opened, Fault>
    requires { Laid b.now × (plan ≡ plan_in b.now) }
    ensures { checked_with result ≡ checked_as (first_fault (event_checks b.now room)) b.now }
{
    let events = body_at(b, Part::Events);
    let body = &b[events..];
    match first_fault(body) {
        Some(place) => Err(Fault {
            why: Refusal::WrongEvent,
            place,
        }),
        None if room < body.len() => Err(Fault {
            why: Refusal::ShortRows,
            place: 0,
        }),
        None => Ok(Opened { plan, events }),
    }
}
