// The replay of a book.
ghost use Rattle.std.specs.Prelude.{◌≡◌, length};
ghost use Rattle.rules.specs.Books.Book.{checked_of};
ghost use Rattle.rules.specs.Replays.Replay.{replay_of};
ghost use Rattle.rules.specs.Schedulers.Protocol.{protocol_named};
ghost use Rattle.device.specs.Device.{replay_spelled};

use rules::answer::{verdict_number, verdict_place};
use rules::plan::Plan;
use rules::protocol::Protocol;
use rules::state::State;

// The refusal's number and place; the plan, and the state where the run stopped: the blank plan and a
// fresh state where the book itself is refused.
#[repr(C)]
#[derive(Clone, Copy)]
pub struct DeviceReplay {
    pub number: u8,
    pub place: usize,
    pub plan: Plan,
    pub state: State,
}

// 1 to 9 and 24 first, and no row byte changes where one refuses; then the events up to the first refusal,
// each accepted one with its four row bytes. No other byte of the rows changes. The protocol is named by
// its number.
#[unsafe(no_mangle)]
pub extern "C" fn recorder_replay(protocol: u8, book: &[u8], rows: &mut [u8]) -> DeviceReplay
    ensures value { result ≡ replay_spelled (replay_of (protocol_named protocol) book.now rows.old).verdict
        (checked_of book.now (length rows.old)).plan
        (replay_of (protocol_named protocol) book.now rows.old).state }
    ensures rows_after { rows.new ≡ (replay_of (protocol_named protocol) book.now rows.old).rows }
{
    let replayed = scheduler::replay(Protocol::from(protocol), book, rows);
    DeviceReplay {
        number: verdict_number(replayed.verdict),
        place: verdict_place(replayed.verdict),
        plan: replayed.plan,
        state: replayed.state,
    }
}
