// RULES 19.7, 19.8: the line of each record of a book, as a number, and of an entry of its contents.
ghost use Rattle.std.specs.Prelude.{◌≡◌, ◌%◌, ◌/◌};
ghost use Rattle.page.specs.Page.{typed};
ghost use Rattle.wording.specs.Records.{task_line, lock_line, use_line, event_words, no_event_line, ran_comment, refused_comment, unreached};
ghost use Rattle.wording.specs.Records.{size_line, entry_line};

use crate::mistake::{number_of, put_refusal_line};
use page::Page;
use rules::capacity::NOBODY;
use rules::event::Event;
use rules::refusal::Refusal;

// The low byte of a record, its second byte, and the number in its other two.
fn low(w: u32) -> u64
    ensures { result ≡ w % 256 }
{
    (w % 256) as u64
}

fn second(w: u32) -> u64
    ensures { result ≡ w / 256 % 256 }
{
    (w / 256 % 256) as u64
}

fn high(w: u32) -> u64
    ensures { result ≡ w / 65536 % 65536 }
{
    (w / 65536) as u64
}

// Two numbers of one byte, with the record's number.
#[tactic(auto, unfolding(crate::specs::Records::task_line, page::specs::Ascii::ascii))]
pub fn put_task(page: &mut Page, k: usize, w: u32)
    ensures { page.new ≡ typed page.old (task_line k w) }
{
    page.put_says(b"task @ @ # @\n", &[low(w), second(w), k as u64]);
}

#[tactic(auto, unfolding(crate::specs::Records::use_line, page::specs::Ascii::ascii))]
pub fn put_use(page: &mut Page, k: usize, w: u32)
    ensures { page.new ≡ typed page.old (use_line k w) }
{
    page.put_says(b"use @ @ # @\n", &[low(w), second(w), k as u64]);
}

// A lock with something in its second byte has no words.
#[tactic(auto, using(page::proofs::Choice::choosing), unfolding(crate::specs::Records::lock_line, page::specs::Ascii::ascii))]
pub fn put_lock(page: &mut Page, k: usize, w: u32)
    ensures { page.new ≡ typed page.old (lock_line k w) }
{
    let other = second(w);
    if other == 0 {
        page.put_says(b"lock @ @ # @\n", &[low(w), high(w), k as u64]);
    } else {
        page.put_says(
            b"# lock @ @ with @ in its second byte\n",
            &[low(w), high(w), other],
        );
    }
}

#[tactic(auto, unfolding(crate::specs::Records::event_words, page::specs::Ascii::ascii))]
pub fn put_event(page: &mut Page, event: Event)
    ensures { page.new ≡ typed page.old (event_words event) }
{
    match event {
        Event::Release(t) => page.put_says(b"release @", &[t as u64]),
        Event::Acquire(l) => page.put_says(b"acquire @", &[l as u64]),
        Event::Unlock(l) => page.put_says(b"unlock @", &[l as u64]),
        Event::Work(a) => page.put_says(b"work @", &[a as u64]),
        Event::Finish => page.put_text(b"finish"),
        Event::Tick => page.put_text(b"tick"),
    }
}

// A record that 8 refuses has no words.
#[tactic(auto, unfolding(crate::specs::Records::no_event_line, page::specs::Ascii::ascii))]
pub fn put_no_event(page: &mut Page, w: u32)
    ensures { page.new ≡ typed page.old (no_event_line w) }
{
    page.put_says(b"# kind @, id @, amount @\n", &[low(w), second(w), high(w)]);
}

// The comment of event n that ran, was refused or was not reached. The task is as a row has it, so NOBODY stands for nobody.
pub fn put_ran(page: &mut Page, n: u64, task: u64, user: u64)
    ensures { page.new ≡ typed page.old (ran_comment n task user) }
{
    let numbers = [n, task, user];
    if task == NOBODY as u64 {
        page.put_says(b" # event @: nobody runs\n", &numbers);
    } else {
        page.put_says(b" # event @: task @ runs at @\n", &numbers);
    }
}

#[tactic(auto, unfolding(crate::specs::Records::refused_comment, page::specs::Ascii::ascii))]
pub fn put_refused(page: &mut Page, n: u64, why: Refusal)
    ensures { page.new ≡ typed page.old (refused_comment n why) }
{
    put_refusal_line(page, b" # event @: refused @: ", &[n, number_of(why)], why);
}

#[tactic(auto, unfolding(crate::specs::Records::unreached, page::specs::Ascii::ascii))]
pub fn put_unreached(page: &mut Page, n: u64)
    ensures { page.new ≡ typed page.old (unreached n) }
{
    page.put_says(b" # event @: not reached\n", &[n]);
}

// The size of a book, and an entry of its contents.
#[tactic(auto, unfolding(crate::specs::Records::size_line, page::specs::Ascii::ascii))]
pub fn put_size(page: &mut Page, size: usize)
    ensures { page.new ≡ typed page.old (size_line size) }
{
    page.put_says(b"# the book has @ bytes\n", &[size as u64]);
}

#[tactic(auto, unfolding(crate::specs::Records::entry_line, page::specs::Ascii::ascii))]
pub fn put_entry(page: &mut Page, e: usize, kind: usize, count: usize, offset: usize)
    ensures { page.new ≡ typed page.old (entry_line e kind count offset) }
{
    page.put_says(
        b"# entry @: kind @, @ records, offset @\n",
        &[e as u64, kind as u64, count as u64, offset as u64],
    );
}
