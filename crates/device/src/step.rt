// A single step, and the state before the first.
ghost use Rattle.std.specs.Prelude.{◌≡◌};
ghost use Rattle.rules.specs.Schedulers.State.{fresh_of};
ghost use Rattle.device.specs.Device.{no_event, step_from};

use book::record::{event_fault, event_of};
use rules::answer::{answer_calls, answer_number};
use rules::plan::Plan;
use rules::protocol::Protocol;
use rules::refusal::Refusal;
use rules::state::{State, fresh};

// The refusal's number and the lazy calls; the state after the event, which is the given one where it
// is refused.
#[repr(C)]
#[derive(Clone, Copy)]
pub struct DeviceStep {
    pub number: u8,
    pub calls: u8,
    pub state: State,
}

// Three numbers that are no event's: what 8 refuses in a book, but for work of 0, which is an event.
fn no_event(kind: u8, id: u8, amount: u16) -> bool
    ensures { result ≡ no_event kind id amount }
{
    if kind == 4 {
        id != 0
    } else {
        event_fault(kind, id, amount)
    }
}

// Before the first event.
#[unsafe(no_mangle)]
pub extern "C" fn recorder_fresh() -> State
    ensures { result ≡ fresh_of }
{
    fresh()
}

// 8 where the numbers are no event's; then the step: 10 to 22, and any plan and state may be handed in.
// The protocol is named by its number.
#[unsafe(no_mangle)]
pub extern "C" fn recorder_step(
    protocol: u8,
    plan: Plan,
    state: State,
    kind: u8,
    id: u8,
    amount: u16,
) -> DeviceStep
    ensures { result ≡ step_from protocol plan state kind id amount }
{
    if no_event(kind, id, amount) {
        return DeviceStep {
            number: u8::from(Refusal::WrongEvent),
            calls: 0,
            state,
        };
    }
    let stepped = scheduler::step(
        Protocol::from(protocol),
        plan,
        state,
        event_of(kind, id, amount),
    );
    DeviceStep {
        number: answer_number(stepped.answer),
        calls: answer_calls(stepped.answer),
        state: stepped.state,
    }
}
