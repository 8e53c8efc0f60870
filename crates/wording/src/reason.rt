// RULES 19.9: what a call of the kernel and the refusal of an event were about.
ghost use Rattle.std.specs.Prelude.{◌≡◌};
ghost use Rattle.page.specs.Page.{typed};
ghost use Rattle.wording.specs.Reasons.{call_line, stop_line, reason_of};

use crate::mistake::{number_of, put_refusal_line};
use page::Page;
use rules::refusal::Refusal;

// What the state that refused an event has to say: who runs, the task or lock that the event names and its units, how many
// tasks and locks the plan has, who has that lock open; of the running task how many takes it has, the newest one's lock, and
// the least lock whose limit the work would pass, with the units of its section and its limit.
#[derive(Clone, Copy)]
pub struct Facts {
    pub running: u64,
    pub named: u64,
    pub amount: u64,
    pub tasks: u64,
    pub locks: u64,
    pub holder: u64,
    pub depth: u64,
    pub newest: u64,
    pub past: u64,
    pub units: u64,
    pub limit: u64,
}

// A call: the event's number, the task that ran before it, the lock that it names, the task that runs after it and its
// user word. These numbers stand in the sentence as they are handed in (`call_line`).
pub fn put_call(page: &mut Page, n: u64, before: u64, lock: u64, after: u64, user: u64)
    ensures { page.new ≡ typed page.old (call_line n before lock after user) }
{
    if after == before {
        page.put_says(
            b"event @: task @ gave lock @ back and called the kernel; nobody had waited for task @\n",
            &[n, before, lock, before],
        );
    } else {
        page.put_says(
            b"event @: task @ gave lock @ back and called the kernel; task @ had waited for task @ and runs at @\n",
            &[n, before, lock, after, before, user],
        );
    }
}

// The refusal of event n.
#[tactic(auto, unfolding(crate::specs::Reasons::stop_line, page::specs::Ascii::ascii))]
pub fn put_stop(page: &mut Page, n: u64, why: Refusal)
    ensures { page.new ≡ typed page.old (stop_line n why) }
{
    put_refusal_line(page, b"event @: refused @: ", &[n, number_of(why)], why);
}

// What the refusal of an event was about.
#[tactic(auto, using(page::proofs::Typed::typed_none), unfolding(crate::specs::Reasons::reason_of, crate::specs::Reasons::past_reason, page::specs::Ascii::ascii))]
pub fn put_reason(page: &mut Page, why: Refusal, f: Facts)
    ensures { page.new ≡ typed page.old (reason_of why f) }
{
    match why {
        Refusal::NobodyRuns => page.put_text(b"every task that was released has finished\n"),
        Refusal::Unknown => page.put_says(
            b"the plan has @ tasks and @ locks, counted from 0\n",
            &[f.tasks, f.locks],
        ),
        Refusal::AlreadyReleased => page.put_says(
            b"task @ has not finished since its release\n",
            &[f.named],
        ),
        Refusal::NotDeclared => page.put_says(
            b"the plan gives task @ no use of lock @\n",
            &[f.running, f.named],
        ),
        Refusal::OpenElsewhere => page.put_says(
            b"task @ took lock @ and has not given it back\n",
            &[f.holder, f.named],
        ),
        Refusal::RowFull => page.put_says(b"task @ may have no more\n", &[f.running]),
        Refusal::NotNewest if f.depth == 0 => page.put_says(
            b"task @ has no lock open, and lock @ was to be given back\n",
            &[f.running, f.named],
        ),
        Refusal::NotNewest => page.put_says(
            b"the newest take of task @ is of lock @, and lock @ was to be given back\n",
            &[f.running, f.newest, f.named],
        ),
        Refusal::PastLimit => page.put_says(
            b"task @ worked @ units of the @ that lock @ allows, and @ more would pass them\n",
            &[f.running, f.units, f.limit, f.past, f.amount],
        ),
        Refusal::StillOpen => page.put_says(b"task @ has lock @ open\n", &[f.running, f.newest]),
        // No event of a book is refused by these.
        Refusal::ShortBook
        | Refusal::WrongCount
        | Refusal::WrongLayout
        | Refusal::WrongTask
        | Refusal::WrongLock
        | Refusal::WrongUse
        | Refusal::WrongCeiling
        | Refusal::WrongEvent
        | Refusal::ShortRows
        | Refusal::Unsound
        | Refusal::Exhausted
        | Refusal::NoWork
        | Refusal::ShortBuffer
        | Refusal::AboveMaximum
        | Refusal::WrongJob
        | Refusal::ShortSpace => {}
    }
}
