// The check of a book.
ghost use Rattle.std.specs.Prelude.{◌≡◌};
ghost use Rattle.rules.specs.Books.Book.{checked_of, checked_with};
ghost use Rattle.device.specs.Device.{check_spelled};

use rules::answer::{Fault, Opened};
use rules::plan::{Plan, blank};

// The refusal's number and place; the plan, and where the event body starts in the book, all 0 beside
// a refusal.
#[repr(C)]
#[derive(Clone, Copy)]
pub struct DeviceCheck {
    pub number: u8,
    pub place: usize,
    pub plan: Plan,
    pub events: usize,
}

impl From<Result<Opened, Fault>> for DeviceCheck {
    ghost from_gives = { λ r d. d ≡ check_spelled (checked_with r) };

    #[tactic(auto, unfolding(rules::specs::Books::Book::checked_with, rules::specs::Numbers::Answer::verdict_number, rules::specs::Numbers::Answer::verdict_place))]
    fn from(checked: Result<Opened, Fault>) -> DeviceCheck {
        match checked {
            Ok(Opened { plan, events }) => DeviceCheck {
                number: 0,
                place: 0,
                plan,
                events,
            },
            Err(Fault { why, place }) => DeviceCheck {
                number: u8::from(why),
                place,
                plan: blank(),
                events: 0,
            },
        }
    }
}

// 1 to 9 and 24, for a book that is to be replayed with so many bytes of row space.
#[unsafe(no_mangle)]
pub extern "C" fn recorder_check(book: &[u8], room: usize) -> DeviceCheck
    ensures { result ≡ check_spelled (checked_of book.now room) }
{
    DeviceCheck::from(book::check(book, room))
}
