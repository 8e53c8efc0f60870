// RULES 15, 19.9: the replay of a book, which is on standard input, and its report, on standard output. The word
// `first` asks for the first protocol, and `explain` for what the calls and the refusal were about, in words.
#![tactic(auto)]

mod words;

ghost use Rattle.std.specs.Prelude.{◌≡◌, ◌≤◌, min, length, take};
ghost use Rattle.rules.specs.Numbers.Capacity.{max_tasks};
ghost use Rattle.rules.specs.Numbers.Place.{stored};
ghost use Rattle.io.specs.Counts.{IsPrefixLen};
ghost use Rattle.office.specs.Explain.{explained_of};
ghost use Rattle.orbeshuri.specs.Text.{report_space, reported, text_of};

use office::explain::explain;
use office::space::text_room;
use page::Page;
use report::report;
use rules::answer::Replayed;
use rules::capacity::MAX_EVENTS;
use rules::protocol::Protocol;
use scheduler::replay;
use std::env::{Env, FillError};
use words::{Asked, asked_by};

// Four row bytes for each event that a book may have, so 9 is never given.
const ROW_SPACE: usize = MAX_EVENTS * 4;

// Room for every report, as proved: the header, a row of 20 bytes or fewer for each event, the calls and a delay for each task.
const REPORT_SPACE: usize = 262144;

// The delays of the plan's tasks are reported.
fn report_state(out: &mut [u8], replayed: &Replayed, rows: &[u8]) -> usize
    requires { replayed.now.plan.tasks ≤ max_tasks }
    ensures out_after { out.new ≡ stored out.old 0 (reported replayed.now rows.now) }
    ensures value { result ≡ min (length (reported replayed.now rows.now)) (length out.old) }
{
    let head = replayed.state.head;
    report(
        out,
        replayed.verdict,
        head.accepted as usize,
        rows,
        head.lazy,
        head.eager,
        &replayed.state.delay[..replayed.plan.tasks],
    )
}

// The whole text for a book at the front of `out`, and how many bytes it has. The bytes after it stay.
fn text(protocol: Protocol, book: &[u8], out: &mut [u8]) -> usize
    requires { report_space ≤ length out.old }
    ensures value { result ≡ length (text_of protocol book.now) }
    ensures out_after { take result out.new ≡ text_of protocol book.now }
    ensures out_after_2 { out.new ≡ stored out.old 0 (text_of protocol book.now) }
    ensures prefix_len { IsPrefixLen result out.new }
{
    let mut rows = [0u8; ROW_SPACE];
    let replayed = replay(protocol, book, &mut rows);
    report_state(out, &replayed, &rows)
}

// The words for a book at the front of `out`, cut where that ends, and how many bytes of them stand there.
#[tactic(auto, using(page::proofs::Typed::typed_new))]
fn words_of(protocol: Protocol, book: &[u8], out: &mut [u8]) -> usize
    ensures out_after { out.new ≡ stored out.old 0 (explained_of protocol book.now) }
    ensures value { result ≡ min (length (explained_of protocol book.now)) (length out.old) }
{
    let mut page = Page::new(out);
    explain(protocol, book, &mut page);
    page.place()
}

fn write_report(protocol: Protocol, book: &[u8]) {
    let mut out = [0u8; REPORT_SPACE];
    let size = text(protocol, book, &mut out);
    io::write_all(1, &out[..size]);
}

fn write_words(protocol: Protocol, book: &[u8]) {
    let mut out = text_room();
    let size = words_of(protocol, book, &mut out);
    io::write_all(1, &out[..size]);
}

// RULES 15.7: the buffer is larger than the largest book. What is read of a longer input has the
// report of all of it. A function of its own, also when it is compiled: the buffers, over a mebibyte, are taken only where
// there is a book to report.
#[inline(never)]
fn report_input(asked: Asked) {
    let mut book = io::large_buffer();
    let n = io::read_full(0, &mut book);
    let book = &book[..n];
    write_report(asked.protocol, book);
    if asked.explained {
        write_words(asked.protocol, book);
    }
}

// The word i that the program is started with, at the front of `out`, and how many bytes it has: 0 where there is no such
// word, and where it has more bytes than `out`.
fn word(env: &impl Env, i: usize, out: &mut [u8]) -> usize
    ensures { IsPrefixLen result out.new }
{
    env.arg(i, out).unwrap_or(0)
}

// Whether there is a word i. What the host gives no contract can say.
fn has_word(env: &impl Env, i: usize) -> bool {
    let mut out = [0u8; 8];
    !matches!(env.arg(i, &mut out), Err(FillError::NotPresent))
}

// How many words there are, the program's own name among them, but never more than 4: with so many nothing is asked for.
fn word_count(env: &impl Env) -> usize
    ensures { (1 ≤ result) × (result ≤ 4) }
{
    for i in 1..4usize {
        if !has_word(env, i) {
            return i;
        }
    }
    4
}

// Words that ask for nothing are told to standard error, and nothing is replayed.
fn main(rt: HostRuntime) {
    let mut one = [0u8; 8];
    let n = word(&rt, 1, &mut one);
    let mut two = [0u8; 8];
    let m = word(&rt, 2, &mut two);
    match asked_by(word_count(&rt), &one[..n], &two[..m]) {
        Some(asked) => report_input(asked),
        None => {
            io::write_all(2, b"usage: orbeshuri [first] [explain] <BOOK\n");
        }
    }
}
