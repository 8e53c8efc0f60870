// The replay of a book by a protocol. The reply: the refusal's number or 0, its place, the lazy and the eager
// calls, the number of tasks, each task's delay and then each task's bound, and the whole row space,
// which held 0xEE before the replay.
use crate::wire::Reply;
use plan::bound;
use rules::capacity::MAX_TASKS;
use rules::protocol::Protocol;

// The number, place and calls, the number of tasks, and two numbers for each of them.
const REPLY: usize = 14 + MAX_TASKS * 4;

pub fn reply(protocol: Protocol, book: &[u8], rows: &mut [u8]) {
    rows.fill(0xEE);
    let replayed = scheduler::replay(protocol, book, rows);
    let plan = replayed.plan;
    let state = replayed.state;
    let mut out = Reply::<REPLY>::new();
    out.put_fault(replayed.verdict.err());
    out.put(&state.head.lazy.to_le_bytes());
    out.put(&state.head.eager.to_le_bytes());
    out.put(&plan.tasks.to_le_bytes()[..1]);
    for delay in state.delay.iter().take(plan.tasks) {
        out.put(&delay.to_le_bytes());
    }
    for task in 0..plan.tasks {
        out.put(&bound(plan, task).to_le_bytes());
    }
    out.send();
    io::write_all(1, rows);
}
