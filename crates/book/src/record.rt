// An event's record: kind, id, amount.
ghost use Rattle.std.specs.Prelude.{◌≡◌};
ghost use Rattle.rules.specs.Books.Event.{event_fault, event_of, record_kind, record_id, record_amount, number_fault, number_event};

use rules::event::Event;

// 8: no event's kind, something in a field without use, or work of no units. All is asked of every
// record, without a branch, since kinds come in no order that a processor could foresee.
pub fn event_fault(kind: u8, id: u8, amount: u16) -> bool
    ensures { result ≡ event_fault kind id amount }
{
    let work = kind == 4;
    let none = amount == 0;
    let other = (kind == 0) | (kind > 6);
    let named = (kind > 3) & (id != 0);
    (work == none) | other | named
}

// The event of a record that 8 lets pass.
pub fn event_of(kind: u8, id: u8, amount: u16) -> Event
    ensures { result ≡ event_of kind id amount }
{
    match kind {
        1 => Event::Release(id),
        2 => Event::Acquire(id),
        3 => Event::Unlock(id),
        4 => Event::Work(amount),
        5 => Event::Finish,
        _ => Event::Tick,
    }
}

// Kind, id and amount of a record as one number, low byte first.
fn parts(w: u32) -> (u8, u8, u16)
    ensures { (result.0 ≡ record_kind w) × (result.1 ≡ record_id w) × (result.2 ≡ record_amount w) }
{
    let [kind, id, low, high] = w.to_le_bytes();
    (kind, id, u16::from_le_bytes([low, high]))
}

// The same of such a number.
pub fn number_fault(w: u32) -> bool
    ensures { result ≡ number_fault w }
{
    let (kind, id, amount) = parts(w);
    event_fault(kind, id, amount)
}

pub fn number_event(w: u32) -> Event
    ensures { result ≡ number_event w }
{
    let (kind, id, amount) = parts(w);
    event_of(kind, id, amount)
}
