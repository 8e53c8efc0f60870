// RULES 20.1, 20.2: the readers of bodies and items, which call each other: a bracketed item holds a body. A body's items are
// walked by a loop, so the calls go no deeper than the nesting; an empty body is no call. Each lays the events that it reads; those that do not fit are counted and not written.
ghost use Rattle.std.specs.Prelude.{◌≡◌, ◌+◌, ◌≤◌, ◌<◌, length, IfOk, IfErr};
ghost use Rattle.rules.specs.Books.Event.{event_number};
ghost use Rattle.rules.specs.declared.event.Event.{Event};
ghost use Rattle.jobs.specs.Grammar.{max_units, max_lock};
ghost use Rattle.jobs.specs.Reader.{read_job};
ghost use Rattle.jobs.specs.Reader.Mode.{units};
ghost use Rattle.jobs.specs.Sheet.{sheet, tell};
ghost use Rattle.jobs.specs.Said.{Went, Did, Entered, Left, Over, whole, Within, number_end, end, count};

use crate::form::LEVELS;
use crate::space::store;
use crate::text::{GAP, LEFT, Number, RIGHT, WORK, byte, lock, units};

// The records of events, each as one number.
const FINISH: u32 = 5;

#[tactic(auto, unfolding(rules::specs::Books::Event::kind_of, rules::specs::Books::Event::id_of, rules::specs::Books::Event::amount_of))]
fn work_number(units: u32) -> u32
    requires { units ≤ max_units }
    ensures { result ≡ event_number (Event.Work units) }
{
    4 + units * 65536
}

#[tactic(auto, unfolding(rules::specs::Books::Event::kind_of, rules::specs::Books::Event::id_of, rules::specs::Books::Event::amount_of))]
fn acquire_number(lock: u32) -> u32
    requires { lock ≤ max_lock }
    ensures { result ≡ event_number (Event.Acquire lock) }
{
    2 + lock * 256
}

#[tactic(auto, unfolding(rules::specs::Books::Event::kind_of, rules::specs::Books::Event::id_of, rules::specs::Books::Event::amount_of))]
fn unlock_number(lock: u32) -> u32
    requires { lock ≤ max_lock }
    ensures { result ≡ event_number (Event.Unlock lock) }
{
    3 + lock * 256
}

// Where a reader stands behind what it read, with the count of events.
#[derive(Clone, Copy)]
pub struct At {
    pub place: usize,
    pub count: usize,
}

// Work, behind its `w`.
fn work(text: &[u8], from: usize, space: &mut [u8], n: usize) -> Result<At, usize>
    requires { (n < from) × (from ≤ length text.now) }
    ensures went { Went text.now from (units 0) (sheet space.old n) result space.new }
    ensures within { Within text.now from (end result) (count result) }
{
    let Number { place, value } = units(text, from)?;
    store(space, n, work_number(value));
    Ok(At {
        place,
        count: n + 1,
    })
}

// A section's lock, behind its `[`.
fn enter(text: &[u8], from: usize, space: &mut [u8], n: usize) -> Result<Number, usize>
    requires { (n < from) × (from ≤ length text.now) }
    ensures entered { Entered text.now from (sheet space.old n) result (sheet space.new (n + 1)) }
    ensures within { Within text.now from (number_end result) (n + 1) }
    ensures value_le_max_lock { IfOk result (λ l. l.value ≤ max_lock) }
{
    let number = lock(text, from)?;
    store(space, n, acquire_number(number.value));
    Ok(number)
}

// The end of the section of a lock.
fn leave(text: &[u8], from: usize, l: u32, space: &mut [u8], n: usize) -> Result<At, usize>
    requires n_le_from { (n ≤ from) × (from ≤ length text.now) }
    requires l_le_max_lock { l ≤ max_lock }
    ensures left { Left text.now from l (sheet space.old n) result space.new }
    ensures within { Within text.now from (end result) (count result) }
{
    if byte(text, from) != RIGHT {
        return Err(from);
    }
    store(space, n, unlock_number(l));
    Ok(At {
        place: from + 1,
        count: n + 1,
    })
}

// An item, with k levels of nesting left.
#[cycle(body_item)]
fn item(text: &[u8], from: usize, k: usize, space: &mut [u8], n: usize) -> Result<At, usize>
    requires { (n ≤ from) × (from ≤ length text.now) }
    ensures did { Did text.now k from (sheet space.old n) result space.new }
    ensures within { Within text.now from (end result) (count result) }
{
    match byte(text, from) {
        WORK => work(text, from + 1, space, n),
        LEFT => {
            if k == 0 {
                return Err(from);
            }
            let l = enter(text, from + 1, space, n)?;
            if byte(text, l.place) == GAP {
                let inner = body(text, l.place + 1, k - 1, space, n + 1)?;
                leave(text, inner.place, l.value, space, inner.count)
            } else {
                leave(text, l.place, l.value, space, n + 1)
            }
        }
        _ => Err(from),
    }
}

// A run of items with one space between them, as far as it goes, with k levels of nesting left. There is one at least.
// The loop has no list to go over: each item answers where the next one starts.
#[cycle(body_item)]
fn body(text: &[u8], from: usize, k: usize, space: &mut [u8], n: usize) -> Result<At, usize>
    requires { (n ≤ from) × (from ≤ length text.now) }
    ensures did { Did text.now k from (sheet space.old n) result space.new }
    ensures within { Within text.now from (end result) (count result) }
    ensures over { Over text.now result }
{
    let mut i = from;
    let mut m = n;
    loop {
        let next = item(text, i, k, space, m)?;
        if byte(text, next.place) != GAP {
            return Ok(next);
        }
        i = next.place + 1;
        m = next.count;
    }
}

// A whole text: how many events there are, or where the reader stopped.
pub fn scan(text: &[u8], space: &mut [u8]) -> Result<usize, usize>
    ensures text_value { tell (sheet space.old 0) (read_job text.now) ≡ whole result text.now space.new }
    ensures place_in_bounds { IfErr result (λ place. place ≤ length text.now) }
{
    if text.is_empty() {
        store(space, 0, FINISH);
        return Ok(1);
    }
    let At { place, count } = body(text, 0, LEVELS, space, 0)?;
    if place < text.len() {
        return Err(place);
    }
    store(space, count, FINISH);
    Ok(count + 1)
}
