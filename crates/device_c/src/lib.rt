// RULES 16: the recorder's library as C links it. A crate is a library or a static library, and not both: the functions
// stand in `device`, and each of these calls the one of its name and promises the same, clause by clause.
#![tactic(auto)]

ghost use Rattle.std.specs.Prelude.{◌≡◌, length};
ghost use Rattle.rules.specs.Books.Book.{checked_of};
ghost use Rattle.rules.specs.Books.Load.{load_of};
ghost use Rattle.rules.specs.Books.Write.{write_of};
ghost use Rattle.rules.specs.Demands.Bound.{bound_of};
ghost use Rattle.rules.specs.Replays.Replay.{replay_of};
ghost use Rattle.rules.specs.Schedulers.Protocol.{protocol_named};
ghost use Rattle.rules.specs.Schedulers.State.{fresh_of};
ghost use Rattle.jobs.specs.Job.{job_of};
ghost use Rattle.device.specs.Table.{numbers_of};
ghost use Rattle.device.specs.Device.{
  check_spelled,
  full_room,
  job_spelled,
  load_spelled,
  replay_spelled,
  step_from,
  write_spelled,
};

use device::check::DeviceCheck;
use device::job::DeviceJob;
use device::load::DeviceLoad;
use device::replay::DeviceReplay;
use device::step::DeviceStep;
use device::table::TaskRecord;
use device::write::DeviceWrite;
use rules::plan::Plan;
use rules::state::State;

// 1 to 9 and 24, for a book that is to be replayed with so many bytes of row space.
#[unsafe(no_mangle)]
pub extern "C" fn recorder_check(book: &[u8], room: usize) -> DeviceCheck
    ensures { result ≡ check_spelled (checked_of book.now room) }
{
    device::check::recorder_check(book, room)
}

// 2, 4 to 7 and 24.
#[unsafe(no_mangle)]
pub extern "C" fn recorder_load_table(
    tasks: &[TaskRecord],
    locks: &[u32],
    uses: &[u16],
) -> DeviceLoad
    ensures { result ≡ load_spelled (load_of (numbers_of tasks.now) locks.now uses.now) }
{
    device::load::recorder_load_table(tasks, locks, uses)
}

// 2, 4 to 7, 24, 8 and 23; where one refuses, no byte of the buffer changes. Else the book stands at its
// start, and the bytes after the book stay.
#[unsafe(no_mangle)]
pub extern "C" fn recorder_write(
    tasks: &[u16],
    locks: &[u32],
    uses: &[u16],
    events: &[u32],
    buffer: &mut [u8],
) -> DeviceWrite
    ensures value { result ≡ write_spelled (write_of tasks.now locks.now uses.now events.now buffer.old) }
    ensures buffer_after { buffer.new ≡ (write_of tasks.now locks.now uses.now events.now
        buffer.old).bytes }
{
    device::write::recorder_write(tasks, locks, uses, events, buffer)
}

// Before the first event.
#[unsafe(no_mangle)]
pub extern "C" fn recorder_fresh() -> State
    ensures { result ≡ fresh_of }
{
    device::step::recorder_fresh()
}

// 8 where the numbers are no event's; then the step: 10 to 22, and any plan and state may be handed in.
// The protocol is named by its number.
#[unsafe(no_mangle)]
pub extern "C" fn recorder_step(
    protocol: u8,
    plan: Plan,
    state: State,
    kind: u8,
    id: u8,
    amount: u16,
) -> DeviceStep
    ensures { result ≡ step_from protocol plan state kind id amount }
{
    device::step::recorder_step(protocol, plan, state, kind, id, amount)
}

// 1 to 9 and 24 first, and no row byte changes where one refuses; then the events up to the first refusal,
// each accepted one with its four row bytes. No other byte of the rows changes. The protocol is named by
// its number.
#[unsafe(no_mangle)]
pub extern "C" fn recorder_replay(protocol: u8, book: &[u8], rows: &mut [u8]) -> DeviceReplay
    ensures value { result ≡ replay_spelled (replay_of (protocol_named protocol) book.now rows.old).verdict
        (checked_of book.now (length rows.old)).plan
        (replay_of (protocol_named protocol) book.now rows.old).state }
    ensures rows_after { rows.new ≡ (replay_of (protocol_named protocol) book.now rows.old).rows }
{
    device::replay::recorder_replay(protocol, book, rows)
}

// The bound for a task of the book's plan; 0 for a task that it has not, and for a book that is refused.
#[unsafe(no_mangle)]
pub extern "C" fn recorder_bound(book: &[u8], task: usize) -> u16
    ensures { result ≡ bound_of (checked_of book.now full_room).plan task }
{
    device::bound::recorder_bound(book, task)
}

// 25 and 26; where one refuses, no byte of the space changes. Else the events' records stand at its start, and the bytes after
// them stay.
#[unsafe(no_mangle)]
pub extern "C" fn recorder_read_job(text: &[u8], space: &mut [u8]) -> DeviceJob
    ensures value { result ≡ job_spelled (job_of text.now space.old).answer }
    ensures space_after { space.new ≡ (job_of text.now space.old).space }
{
    device::job::recorder_read_job(text, space)
}
