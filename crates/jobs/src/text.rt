// RULES 20.1: the bytes of a job's text, and the numbers in it.
ghost use Rattle.std.specs.Prelude.{◌≡◌, ◌≤◌, ◌<◌, length, IfOk, IfSome};
ghost use Rattle.rules.specs.Numbers.Place.{at};
ghost use Rattle.jobs.specs.Grammar.{max_units, max_lock};
ghost use Rattle.jobs.specs.Said.{sign_at, digit_of, Counted, Numbered, number_end, Within};

use crate::form::{MAX_LOCK, MAX_UNITS};

// The bytes of the form that are no digits.
pub const WORK: u8 = b'w';

pub const LEFT: u8 = b'[';

pub const RIGHT: u8 = b']';

pub const GAP: u8 = b' ';

// The byte at a place; past the end it is 0, which is none of the form.
pub fn byte(text: &[u8], place: usize) -> u8
    ensures { result ≡ at text.now place }
{
    if place < text.len() { text[place] } else { 0 }
}

// The digit at a place.
pub fn digit(text: &[u8], from: usize) -> Option<u32>
    ensures value { result ≡ digit_of (sign_at text.now from) }
    ensures below { IfSome result (λ d. d < 10) }
{
    match byte(text, from) {
        b @ b'0'..=b'9' => Some(u32::from(b - b'0')),
        _ => None,
    }
}

// A number that was read, and where the reader stands behind it.
#[derive(Clone, Copy)]
pub struct Number {
    pub place: usize,
    pub value: u32,
}

// Units, 1 to 65,535; or where the reader stopped.
pub fn units(text: &[u8], from: usize) -> Result<Number, usize>
    requires { from ≤ length text.now }
    ensures counted { Counted text.now from result }
    ensures within { Within text.now from (number_end result) 0 }
    ensures value_le_max_units { IfOk result (λ n. n.value ≤ max_units) }
{
    let mut value = match digit(text, from) {
        None | Some(0) => return Err(from),
        Some(first) => first,
    };
    let mut place = from + 1;
    while let Some(d) = digit(text, place) {
        value = value * 10 + d;
        if value > MAX_UNITS {
            return Err(place);
        }
        place += 1;
    }
    Ok(Number { place, value })
}

// A lock's number, 0 to 31; or where the reader stopped.
pub fn lock(text: &[u8], from: usize) -> Result<Number, usize>
    requires { from ≤ length text.now }
    ensures numbered { Numbered text.now from result }
    ensures within { Within text.now from (number_end result) 0 }
    ensures value_le_max_lock { IfOk result (λ n. n.value ≤ max_lock) }
{
    let Some(first) = digit(text, from) else {
        return Err(from);
    };
    let place = from + 1;
    let Some(second) = digit(text, place) else {
        return Ok(Number {
            place,
            value: first,
        });
    };
    let value = first * 10 + second;
    if first == 0 || value > MAX_LOCK {
        return Err(place);
    }
    let place = place + 1;
    match digit(text, place) {
        Some(_) => Err(place),
        None => Ok(Number { place, value }),
    }
}
