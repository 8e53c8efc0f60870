// RULES 19.7, 19.8: the text of a book.
ghost use Rattle.std.specs.Prelude.{Ok, ◌≡◌, [], ◌∷◌, ◌++◌, ◌+◌, ◌<◌, ◌^◌, min, length};
ghost use Rattle.rules.specs.Numbers.Place.{stored};
ghost use Rattle.rules.specs.Numbers.Refusal.{number_of};
ghost use Rattle.rules.specs.Numbers.Verdict.{refused_at};
ghost use Rattle.page.specs.Page.{typed};
ghost use Rattle.page.specs.Says.{filled};
ghost use Rattle.book.specs.Look.{entry_in};
ghost use Rattle.wording.specs.Records.{event_line};
ghost use Rattle.office.specs.Show.{task_lines, lock_lines, use_lines, stop_comment, comment_of, event_lines};
ghost use Rattle.office.specs.Show.{task_part, lock_part, use_part, event_part, parts_of, entries_of, refused_body, refused_head, shown_as, shown_of};

use crate::entry::put_entry_of;
use crate::space::ROW_SPACE;
use book::look::{entry_at, event, lock, task, usage};
use book::record::{number_event, number_fault};
use page::Page;
use report::row::{running, user};
use rules::answer::Fault;
use rules::protocol::Protocol;
use rules::refusal::Refusal;
use scheduler::replay;
use wording::mistake::put_refusal;
use wording::record::{
    put_event, put_lock, put_no_event, put_ran, put_refused, put_size, put_task, put_unreached,
    put_use,
};

// What a run came to: its verdict, how many events it accepted, and its row bytes.
#[derive(Clone, Copy)]
struct Run<'a> {
    verdict: Result<(), Fault>,
    accepted: usize,
    rows: &'a [u8],
}

// The first n tasks. Not one function for the three parts, with a closure for the line: its contract would have to say what each
// call of the closure puts, and is longer than these loops.
#[tactic(auto, using(page::proofs::Typed::typing, crate::proofs::Showing::lines))]
fn put_tasks(page: &mut Page, b: &[u8], n: usize)
    ensures { page.new ≡ typed page.old (task_lines b.now n) }
{
    for k in 0..n {
        put_task(page, k, task(b, k));
    }
}

#[tactic(auto, using(page::proofs::Typed::typing, crate::proofs::Showing::lines))]
fn put_locks(page: &mut Page, b: &[u8], n: usize)
    ensures { page.new ≡ typed page.old (lock_lines b.now n) }
{
    for k in 0..n {
        put_lock(page, k, lock(b, k));
    }
}

#[tactic(auto, using(page::proofs::Typed::typing, crate::proofs::Showing::lines))]
fn put_uses(page: &mut Page, b: &[u8], n: usize)
    ensures { page.new ≡ typed page.old (use_lines b.now n) }
{
    for k in 0..n {
        put_use(page, k, usage(b, k));
    }
}

// The comment of the event at which a run ended.
#[tactic(auto, unfolding(crate::specs::Show::stop_comment))]
fn put_stop(page: &mut Page, verdict: Result<(), Fault>, n: u64)
    ensures { page.new ≡ typed page.old (stop_comment verdict n) }
{
    match verdict {
        Ok(()) => put_unreached(page, n),
        Err(Fault { why, .. }) => put_refused(page, n, why),
    }
}

// The comment of event k.
#[tactic(auto, using(page::proofs::Choice::choosing), unfolding(crate::specs::Show::comment_of))]
fn put_comment(page: &mut Page, run: &Run, k: usize)
    requires { k + 1 < 2 ^ 64 }
    ensures { page.new ≡ typed page.old (comment_of run.now.verdict run.now.accepted run.now.rows.now k) }
{
    let n = k as u64 + 1;
    if k < run.accepted {
        put_ran(page, n, running(run.rows, k), user(run.rows, k));
    } else if k == run.accepted {
        put_stop(page, run.verdict, n);
    } else {
        put_unreached(page, n);
    }
}

// An event's words and its comment.
#[tactic(auto, using(page::proofs::Typed::typing, crate::proofs::Showing::events))]
fn put_commented(page: &mut Page, w: u32, run: &Run, k: usize)
    requires { k + 1 < 2 ^ 64 }
    ensures { page.new ≡ typed page.old
        (event_line w (comment_of run.now.verdict run.now.accepted run.now.rows.now k)) }
{
    if number_fault(w) {
        put_no_event(page, w);
    } else {
        put_event(page, number_event(w));
        put_comment(page, run, k);
    }
}

// The first n events, with what came of each.
#[tactic(auto, using(page::proofs::Typed::typing, crate::proofs::Showing::lines))]
fn put_events(page: &mut Page, b: &[u8], run: &Run, n: usize)
    ensures { page.new ≡ typed page.old (event_lines b.now run.now.verdict run.now.accepted run.now.rows.now n) }
{
    for k in 0..n {
        put_commented(page, event(b, k), run, k);
    }
}

// The line that counts a part's records.
fn put_heading(page: &mut Page, text: &[u8], n: usize)
    ensures { page.new ≡ typed page.old (filled text.now (n ∷ [])) }
{
    page.put_says(text, &[n as u64]);
}

#[tactic(auto, using(page::proofs::Typed::typing), unfolding(crate::specs::Show::task_part, page::specs::Ascii::ascii))]
fn put_task_part(page: &mut Page, b: &[u8], n: usize)
    ensures { page.new ≡ typed page.old (task_part b.now n) }
{
    put_heading(page, b"# @ tasks: base, maximum\n", n);
    put_tasks(page, b, n);
}

#[tactic(auto, using(page::proofs::Typed::typing), unfolding(crate::specs::Show::lock_part, page::specs::Ascii::ascii))]
fn put_lock_part(page: &mut Page, b: &[u8], n: usize)
    ensures { page.new ≡ typed page.old (lock_part b.now n) }
{
    put_heading(page, b"# @ locks: ceiling, limit\n", n);
    put_locks(page, b, n);
}

#[tactic(auto, using(page::proofs::Typed::typing), unfolding(crate::specs::Show::use_part, page::specs::Ascii::ascii))]
fn put_use_part(page: &mut Page, b: &[u8], n: usize)
    ensures { page.new ≡ typed page.old (use_part b.now n) }
{
    put_heading(page, b"# @ uses: task, lock\n", n);
    put_uses(page, b, n);
}

#[tactic(auto, using(page::proofs::Typed::typing), unfolding(crate::specs::Show::event_part, page::specs::Ascii::ascii))]
fn put_event_part(page: &mut Page, b: &[u8], run: &Run, n: usize)
    ensures { page.new ≡ typed page.old (event_part b.now run.now.verdict run.now.accepted run.now.rows.now n) }
{
    put_heading(page, b"# @ events\n", n);
    put_events(page, b, run, n);
}

// How many records a part has.
fn count(b: &[u8], e: usize) -> usize
    ensures { result ≡ (entry_in b.now e).count }
{
    entry_at(b, e).count
}

// The plan's tasks, locks and uses, and the events.
#[tactic(auto, using(page::proofs::Typed::typing), unfolding(crate::specs::Show::parts_of, crate::specs::Show::first_parts, crate::specs::Show::last_parts))]
fn put_parts(page: &mut Page, b: &[u8], run: &Run)
    ensures { page.new ≡ typed page.old (parts_of b.now run.now.verdict run.now.accepted run.now.rows.now) }
{
    put_task_part(page, b, count(b, 0));
    put_lock_part(page, b, count(b, 1));
    put_use_part(page, b, count(b, 2));
    put_event_part(page, b, run, count(b, 3));
}

// The size and the four entries.
#[tactic(auto, using(page::proofs::Typed::typing), unfolding(crate::specs::Show::entries_of, crate::specs::Show::entry_pair))]
fn put_entries(page: &mut Page, b: &[u8])
    ensures { page.new ≡ typed page.old (entries_of b.now) }
{
    put_size(page, b.len());
    put_entry_of(page, b, 0);
    put_entry_of(page, b, 1);
    put_entry_of(page, b, 2);
    put_entry_of(page, b, 3);
}

// What can be read of a book that is refused.
#[tactic(auto, using(crate::proofs::Showing::bodies))]
fn put_refused_body(page: &mut Page, why: Refusal, b: &[u8])
    ensures { page.new ≡ typed page.old (refused_body (number_of why) b.now) }
{
    match why {
        Refusal::ShortBook => put_size(page, b.len()),
        Refusal::WrongCount | Refusal::WrongLayout => put_entries(page, b),
        _ => put_parts(
            page,
            b,
            &Run {
                verdict: Ok(()),
                accepted: 0,
                rows: &[],
            },
        ),
    }
}

// The refusal, in a comment.
#[tactic(auto, using(page::proofs::Typed::typing), unfolding(crate::specs::Show::refused_head, page::specs::Ascii::ascii))]
fn put_refused_head(page: &mut Page, why: Refusal, place: usize)
    ensures { page.new ≡ typed page.old (refused_head why place) }
{
    page.put_text(b"# ");
    put_refusal(page, why, place);
}

#[tactic(auto, using(page::proofs::Typed::typing), unfolding(crate::specs::Show::shown_as))]
fn put_refused_book(page: &mut Page, b: &[u8], why: Refusal, place: usize)
    ensures { page.new ≡ typed page.old (shown_as (refused_at why place) b.now) }
{
    put_refused_head(page, why, place);
    put_refused_body(page, why, b);
}

fn put_accepted(page: &mut Page, b: &[u8])
    ensures { page.new ≡ typed page.old (shown_as (Ok tt) b.now) }
{
    let mut rows = [0u8; ROW_SPACE];
    let replayed = replay(Protocol::Second, b, &mut rows);
    let run = Run {
        verdict: replayed.verdict,
        accepted: replayed.state.head.accepted as usize,
        rows: &rows,
    };
    put_parts(page, b, &run);
}

fn put_shown(page: &mut Page, b: &[u8])
    ensures { page.new ≡ typed page.old (shown_of b.now) }
{
    match book::check(b, ROW_SPACE) {
        Ok(_) => put_accepted(page, b),
        Err(Fault { why, place }) => put_refused_book(page, b, why, place),
    }
}

// The text of a book at the start of `out`, cut where that ends, and how many bytes of it stand there.
#[tactic(auto, using(page::proofs::Typed::typed_new))]
pub fn show(b: &[u8], out: &mut [u8]) -> usize
    ensures out_after { out.new ≡ stored out.old 0 (shown_of b.now) }
    ensures value { result ≡ min (length (shown_of b.now)) (length out.old) }
{
    let mut page = Page::new(out);
    put_shown(&mut page, b);
    page.place()
}
