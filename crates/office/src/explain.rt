// RULES 19.9: what the calls and the refusal of a replay were about.
ghost use Rattle.std.specs.Prelude.{◌≡◌, ◌&&◌, ◌+◌, ◌-◌, ◌/◌, ◌%◌, ◌<◌, ◌^◌, eqb, ltb};
ghost use Rattle.rules.specs.Numbers.Capacity.{max_locks};
ghost use Rattle.rules.specs.Numbers.Refusal.{number_of};
ghost use Rattle.page.specs.Page.{typed};
ghost use Rattle.office.specs.Explain.{call_text, call_of, call_lines, call_words, past_at, past_lock, facts_of, stop_words, entry_place, place_words, book_words};
ghost use Rattle.office.specs.Explain.{of_book, refused_words, end_words, front_words, explained_as, explained_of};

use crate::entry::put_entry_of;
use crate::space::ROW_SPACE;
use book::look::{event, lock, task, usage};
use page::Page;
use report::row::{call, running, user};
use rules::answer::{Fault, Replayed};
use rules::capacity::MAX_LOCKS;
use rules::plan::Plan;
use rules::protocol::Protocol;
use rules::refusal::Refusal;
use rules::state::State;
use scheduler::replay;
use wording::mistake::put_refusal;
use wording::reason::{Facts, put_call, put_reason, put_stop};
use wording::record::{put_lock, put_no_event, put_size, put_task, put_use};

// The second byte of a record, and the number in its last two.
fn record_id(w: u32) -> u8
    ensures { result ≡ w / 256 % 256 }
{
    (w / 256 % 256) as u8
}

fn record_amount(w: u32) -> u16
    ensures { result ≡ w / 65536 }
{
    (w / 65536) as u16
}

// The call of event k, by its row and by the row before it.
#[tactic(auto, unfolding(crate::specs::Explain::call_text))]
fn put_call_line(page: &mut Page, b: &[u8], rows: &[u8], k: usize)
    requires { k + 1 < 2 ^ 64 }
    ensures { page.new ≡ typed page.old (call_text b.now rows.now k) }
{
    let ran = running(rows, k.saturating_sub(1));
    let lock = u64::from(record_id(event(b, k)));
    let task = running(rows, k);
    put_call(page, k as u64 + 1, ran, lock, task, user(rows, k));
}

#[tactic(auto, using(page::proofs::Typed::typing, page::proofs::Choice::choosing), unfolding(crate::specs::Explain::call_of))]
fn put_call_of(page: &mut Page, b: &[u8], rows: &[u8], k: usize)
    requires { k + 1 < 2 ^ 64 }
    ensures { page.new ≡ typed page.old (call_of b.now rows.now k) }
{
    if call(rows, k) == 1 {
        put_call_line(page, b, rows, k);
    }
}

// Those of the first n events.
#[tactic(auto, using(page::proofs::Typed::typing, crate::proofs::Explaining::calls))]
fn put_calls(page: &mut Page, b: &[u8], rows: &[u8], n: usize)
    ensures { page.new ≡ typed page.old (call_lines b.now rows.now n) }
{
    for k in 0..n {
        put_call_of(page, b, rows, k);
    }
}

#[tactic(auto, using(page::proofs::Choice::choosing), unfolding(crate::specs::Explain::call_words, page::specs::Ascii::ascii))]
fn put_call_words(page: &mut Page, b: &[u8], rows: &[u8], accepted: usize, lazy: u32)
    ensures { page.new ≡ typed page.old (call_words b.now rows.now accepted lazy) }
{
    if lazy == 0 {
        page.put_text(b"no call of the kernel\n");
    } else {
        put_calls(page, b, rows, accepted);
    }
}

// The running task has lock l open, and so many units more would pass its limit.
#[tactic(auto, unfolding(crate::specs::Explain::past_at))]
fn is_past(plan: &Plan, state: &State, amount: u16, l: usize) -> bool
    requires { l < max_locks }
    ensures { result ≡ past_at plan.now.limit state.now.owner state.now.units state.now.head.running amount l }
{
    u64::from(state.owner[l]) == u64::from(state.head.running) + 1
        && u64::from(plan.limit[l]) < u64::from(state.units[l]) + u64::from(amount)
}

// The least lock that the running task has open and whose limit so many units more would pass.
fn past_lock(plan: &Plan, state: &State, amount: u16) -> usize
    ensures { result ≡ past_lock plan.now.limit state.now.owner state.now.units state.now.head.running amount }
{
    for l in 0..MAX_LOCKS {
        if is_past(plan, state, amount, l) {
            return l;
        }
    }
    MAX_LOCKS
}

// What the state says of an event's record.
#[tactic(auto, unfolding(crate::specs::Explain::facts_of))]
fn facts(plan: &Plan, state: &State, w: u32) -> Facts
    ensures { result ≡ facts_of plan.now state.now w }
{
    let running = state.head.running;
    let named = record_id(w);
    let amount = record_amount(w);
    let past = past_lock(plan, state, amount);
    let holder = state.owner.get(named as usize).copied().unwrap_or(0);
    let depth = state.depth.get(running as usize).copied().unwrap_or(0);
    let takes = state.takes.get(running as usize).copied().unwrap_or(0);
    let units = state.units.get(past).copied().unwrap_or(0);
    let limit = plan.limit.get(past).copied().unwrap_or(0);
    Facts {
        running: u64::from(running),
        named: u64::from(named),
        amount: u64::from(amount),
        tasks: plan.tasks as u64,
        locks: plan.locks as u64,
        holder: u64::from(holder.saturating_sub(1)),
        depth: u64::from(depth),
        newest: takes % 256,
        past: past as u64,
        units: u64::from(units),
        limit: u64::from(limit),
    }
}

// The refusal of an event, which is the one after those that were accepted.
#[tactic(auto, using(page::proofs::Typed::typing), unfolding(crate::specs::Explain::stop_words))]
fn put_stop_words(page: &mut Page, b: &[u8], replayed: &Replayed, why: Refusal)
    ensures { page.new ≡ typed page.old (stop_words b.now replayed.now.plan replayed.now.state why) }
{
    let accepted = replayed.state.head.accepted;
    let w = event(b, accepted as usize);
    put_stop(page, u64::from(accepted) + 1, why);
    put_reason(page, why, facts(&replayed.plan, &replayed.state, w));
}

// What stands at the place of 2 or 3.
#[tactic(auto, using(page::proofs::Choice::choosing), unfolding(crate::specs::Explain::entry_place))]
fn put_entry_place(page: &mut Page, b: &[u8], place: usize)
    ensures { page.new ≡ typed page.old (entry_place b.now place) }
{
    if place > 4 {
        put_size(page, b.len());
    } else {
        put_entry_of(page, b, place.saturating_sub(1));
    }
}

// What stands at the place of a refusal.
#[tactic(auto, using(crate::proofs::Explaining::places))]
fn put_place_words(page: &mut Page, why: Refusal, b: &[u8], place: usize)
    ensures { page.new ≡ typed page.old (place_words (number_of why) b.now place) }
{
    match why {
        Refusal::ShortBook => put_size(page, b.len()),
        Refusal::WrongCount | Refusal::WrongLayout => put_entry_place(page, b, place),
        Refusal::WrongTask => put_task(page, place, task(b, place)),
        Refusal::WrongLock | Refusal::WrongCeiling => put_lock(page, place, lock(b, place)),
        Refusal::WrongEvent => put_no_event(page, event(b, place)),
        _ => put_use(page, place, usage(b, place)),
    }
}

#[tactic(auto, using(page::proofs::Typed::typing), unfolding(crate::specs::Explain::book_words))]
fn put_book_words(page: &mut Page, b: &[u8], why: Refusal, place: usize)
    ensures { page.new ≡ typed page.old (book_words b.now why place) }
{
    put_refusal(page, why, place);
    put_place_words(page, why, b, place);
}

// 1 to 9 and 24 refuse a book, the others an event.
#[tactic(auto, using(crate::proofs::Explaining::book_refusals))]
fn of_book(why: Refusal) -> bool
    ensures { result ≡ of_book (number_of why) }
{
    matches!(
        why,
        Refusal::ShortBook
            | Refusal::WrongCount
            | Refusal::WrongLayout
            | Refusal::WrongTask
            | Refusal::WrongLock
            | Refusal::WrongUse
            | Refusal::WrongCeiling
            | Refusal::WrongEvent
            | Refusal::ShortRows
            | Refusal::AboveMaximum
    )
}

#[tactic(auto, using(crate::proofs::Explaining::refusals))]
fn put_refused_words(page: &mut Page, b: &[u8], replayed: &Replayed, why: Refusal, place: usize)
    ensures { page.new ≡ typed page.old
        (refused_words b.now replayed.now.plan replayed.now.state why place) }
{
    if of_book(why) {
        put_book_words(page, b, why, place);
    } else {
        put_stop_words(page, b, replayed, why);
    }
}

#[tactic(auto, using(page::proofs::Typed::typed_none), unfolding(crate::specs::Explain::end_words))]
fn put_end_words(page: &mut Page, b: &[u8], replayed: &Replayed)
    ensures { page.new ≡ typed page.old (end_words b.now replayed.now.plan replayed.now.state replayed.now.verdict) }
{
    match replayed.verdict {
        Ok(()) => {}
        Err(Fault { why, place }) => put_refused_words(page, b, replayed, why, place),
    }
}

// The heading and the calls.
#[tactic(auto, using(page::proofs::Typed::typing), unfolding(crate::specs::Explain::front_words, page::specs::Ascii::ascii))]
fn put_front(page: &mut Page, b: &[u8], rows: &[u8], accepted: u32, lazy: u32)
    ensures { page.new ≡ typed page.old (front_words b.now rows.now accepted lazy) }
{
    page.put_text(b"in words\n");
    put_call_words(page, b, rows, accepted as usize, lazy);
}

#[tactic(auto, using(page::proofs::Typed::typing), unfolding(crate::specs::Explain::explained_as))]
fn put_explained(page: &mut Page, b: &[u8], rows: &[u8], replayed: &Replayed)
    ensures { page.new ≡ typed page.old
        (explained_as b.now rows.now replayed.now.plan replayed.now.state replayed.now.verdict) }
{
    let head = replayed.state.head;
    put_front(page, b, rows, head.accepted, head.lazy);
    put_end_words(page, b, replayed);
}

// The words for a book's replay.
pub fn explain(protocol: Protocol, b: &[u8], page: &mut Page)
    ensures { page.new ≡ typed page.old (explained_of protocol b.now) }
{
    let mut rows = [0u8; ROW_SPACE];
    let replayed = replay(protocol, b, &mut rows);
    put_explained(page, b, &rows, &replayed);
}
