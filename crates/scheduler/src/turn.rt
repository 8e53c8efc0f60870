// One turn of the replay: the event at its place, where it lies, and its row.
ghost use Rattle.std.specs.Prelude.{◌≡◌, ◌+◌, ◌*◌, ◌≤◌, [], ◌∷◌, length};
ghost use Rattle.rules.specs.Replays.Run.{run_from, with_row};
ghost use Rattle.tournament.specs.Tournament.{IsTournamentOf};
ghost use Rattle.scheduler.specs.Going.{TurnReady, event_in, event_on};

use book::reader::read;
use figures::priority::{kernel_byte, user_byte};
use kernel::act::act;
use rules::answer::{Fault, Found};
use rules::event::Event;
use rules::plan::Plan;
use rules::protocol::Protocol;
use rules::state::{Head, State};
use tournament::tree::Tournament;

// The event of record k of a body, and a tick where there is none.
pub fn event_at(body: &[u8], k: usize) -> Event
    ensures { result ≡ event_in body.now k }
{
    match read(body, k) {
        Found::Got(e, _) => e,
        Found::Refused(_, _) => Event::Tick,
        Found::End => Event::Tick,
    }
}

// The event at place k of a run: the one that is handed in, and after it those of the body, each where
// it lies.
fn event_on(first: Event, body: &[u8], k: usize) -> Event
    ensures { result ≡ event_on first body.now k }
{
    if k == 0 { first } else { event_at(body, k) }
}

// Who runs, the user word, the second word, and the call.
fn put_row(rows: &mut [u8], k: usize, h: &Head, call: bool)
    requires { k * 4 + 4 ≤ length rows.old }
    ensures { rows.new ≡ with_row rows.old k h.now call }
{
    let i = k * 4;
    rows[i] = h.running;
    rows[i + 1] = user_byte(h.user);
    rows[i + 2] = kernel_byte(h.next);
    rows[i + 3] = u8::from(call);
}

// The event at place k acts, and has its row where it is accepted.
pub fn turn(
    protocol: Protocol,
    plan: &Plan,
    state: &mut State,
    tree: &mut Tournament,
    first: Event,
    body: &[u8],
    rows: &mut [u8],
    k: usize,
) -> Result<(), Fault>
    requires { TurnReady protocol plan.now state.old rows.old k × IsTournamentOf plan.now.tasks tree.old state.old }
    ensures rows_after { record { verdict = result; state = state.new; rows = rows.new }
        ≡ run_from protocol plan.now (event_on first body.now k ∷ []) k state.old rows.old }
    ensures tree_after { IsTournamentOf plan.now.tasks tree.new state.new }
{
    match act(protocol, plan, state, tree, event_on(first, body, k)) {
        Ok(call) => {
            put_row(rows, k, &state.head, call);
            Ok(())
        }
        Err(why) => Err(Fault { why, place: k }),
    }
}
