// RULES 12: the step and the replay.
#![tactic(auto)]

mod by_value;
mod run;
mod turn;

ghost use Rattle.std.specs.Prelude.{◌≡◌, length};
ghost use Rattle.rules.specs.Books.Book.{checked_of};
ghost use Rattle.rules.specs.Replays.Replay.{ran_as, replay_of};
ghost use Rattle.rules.specs.Replays.Step.{step_of};

use book::check;
use rules::answer::{Opened, Replayed, Stepped};
use rules::event::Event;
use rules::plan::{Plan, blank};
use rules::protocol::Protocol;
use rules::refusal::Refusal;
use rules::state::{State, fresh};
use sound::sound;

// Whatever plan, state and event are handed in, by the protocol that the caller names: 10, or the answer
// of 11 to 22 or of an accepted event, and the state after it, which is the given one where the event is
// refused.
pub fn step(protocol: Protocol, p: Plan, s: State, e: Event) -> Stepped
    ensures { result ≡ step_of protocol p s e }
{
    if sound(protocol, p, s) {
        by_value::step_sound(protocol, p, s, e)
    } else {
        by_value::refused_with(s, Refusal::Unsound)
    }
}

// The replay of a book: 1 to 9 and 24 first, and no row byte changes where one refuses; then its events up
// to the first refusal, each accepted one with its four row bytes. No other byte of the rows changes.
pub fn replay(protocol: Protocol, book: &[u8], rows: &mut [u8]) -> Replayed
    ensures { (ran_as result rows.new ≡ replay_of protocol book.now rows.old)
        × (result.plan ≡ (checked_of book.now (length rows.old)).plan) }
{
    match check(book, rows.len()) {
        Err(fault) => Replayed {
            verdict: Err(fault),
            plan: blank(),
            state: fresh(),
        },
        Ok(Opened { plan, events }) => {
            let body = &book[events..];
            run::run(protocol, plan, body, body.len() / 4, rows)
        }
    }
}
