// RULES 19.1 to 19.4: what one line says.
ghost use Rattle.std.specs.Prelude.{◌≡◌, ◌≤◌, take, drop};
ghost use Rattle.texts.specs.Cut.{before, space, trimmed};
ghost use Rattle.texts.specs.Line.{without_return, content_of, word_length, field_of, after_field, plain_line, job_line, ended, with_second, with_first, words_line, line_of, items_of};

use crate::kind::{Kind, fields, has_items, kind_named, most, part};
use crate::number::{Mistake, read_number};
use crate::record::record;
use crate::word::{find, spaces, without_spaces};
use jobs::check_job;
use rules::answer::Fault;
use rules::capacity::MAX_EVENTS;
use rules::refusal::Refusal;

// Nothing; a record, with its part and its number; a job, with the number of its release and how many records it is; a name
// that no record has; for a record of this kind, the word that is wrong, and how; or a job whose items are refused.
#[derive(Clone, Copy)]
pub enum Line {
    Blank,
    Record(u8, u32),
    Job(u32, usize),
    Unknown,
    Wrong(Kind, u8, Mistake),
    Refused(Refusal, usize),
}

// A job's items have room for all events of a book.
pub const JOB_ROOM: usize = MAX_EVENTS * 4;

// The line without a carriage return at the end.
fn without_return(line: &[u8]) -> &[u8]
    ensures { result.now ≡ take (without_return line.now) line.now }
{
    match line {
        [front @ .., b'\r'] => front,
        _ => line,
    }
}

// The first word, and what comes after the spaces after it.
fn split_word(bytes: &[u8]) -> (&[u8], &[u8])
    ensures word { result.0.now ≡ before space bytes.now }
    ensures rest { result.1.now ≡ drop (word_length bytes.now) bytes.now }
{
    let (word, rest) = bytes.split_at(find(bytes, b' '));
    (word, &rest[spaces(rest)..])
}

// The number w of a record, where the bytes start with its word, and what comes after it. A record that has no such number
// takes 0, and no byte.
fn field(kind: Kind, w: u8, bytes: &[u8]) -> (Result<u32, Mistake>, &[u8])
    ensures number { result.0 ≡ field_of kind w bytes.now }
    ensures rest { result.1.now ≡ after_field kind w bytes.now }
{
    if w >= fields(kind) {
        return (Ok(0), bytes);
    }
    let (word, rest) = split_word(bytes);
    (read_number(word, most(kind, w)), rest)
}

// After the numbers of a record nothing may stand.
fn plain_line(kind: Kind, a: u32, b: u32, bytes: &[u8]) -> Line
    requires { (a ≤ 65535) × (b ≤ 65535) }
    ensures { result ≡ plain_line kind a b bytes.now }
{
    if bytes.is_empty() {
        Line::Record(part(kind), record(kind, a, b))
    } else {
        Line::Wrong(kind, fields(kind) + 2, Mistake::TooMany)
    }
}

// Of a job with this release and these items.
fn job_line(w: u32, items: &[u8]) -> Line
    ensures { result ≡ job_line w items.now }
{
    match check_job(items, JOB_ROOM) {
        Ok(events) => Line::Job(w, events + 1),
        Err(Fault { why, place }) => Line::Refused(why, place),
    }
}

// After its numbers.
fn ended(kind: Kind, a: u32, b: u32, bytes: &[u8]) -> Line
    requires { (a ≤ 65535) × (b ≤ 65535) }
    ensures { result ≡ ended kind a b bytes.now }
{
    if has_items(kind) {
        job_line(record(kind, a, b), &bytes[..without_spaces(bytes)])
    } else {
        plain_line(kind, a, b, bytes)
    }
}

// Its second number.
fn with_second(kind: Kind, a: u32, bytes: &[u8]) -> Line
    requires { a ≤ 65535 }
    ensures { result ≡ with_second kind a (field_of kind 1 bytes.now) (after_field kind 1 bytes.now) }
{
    match field(kind, 1, bytes) {
        (Ok(b), rest) => ended(kind, a, b, rest),
        (Err(mistake), _) => Line::Wrong(kind, 3, mistake),
    }
}

// Its first number.
fn with_first(kind: Kind, bytes: &[u8]) -> Line
    ensures { result ≡ with_first kind (field_of kind 0 bytes.now) (after_field kind 0 bytes.now) }
{
    match field(kind, 0, bytes) {
        (Ok(a), rest) => with_second(kind, a, rest),
        (Err(mistake), _) => Line::Wrong(kind, 2, mistake),
    }
}

// Of bytes that start with a word, or are none.
fn words_line(bytes: &[u8]) -> Line
    ensures { result ≡ words_line bytes.now }
{
    if bytes.is_empty() {
        return Line::Blank;
    }
    let (name, rest) = split_word(bytes);
    match kind_named(name) {
        Some(kind) => with_first(kind, rest),
        None => Line::Unknown,
    }
}

// The words of a line without its newline: what stands before a comment, without the spaces before it.
fn words(line: &[u8]) -> &[u8]
    ensures { result.now ≡ trimmed (content_of line.now) }
{
    let whole = without_return(line);
    let content = &whole[..find(whole, b'#')];
    &content[spaces(content)..]
}

// Of a line without its newline.
pub fn line_of(line: &[u8]) -> Line
    ensures { result ≡ line_of line.now }
{
    words_line(words(line))
}

// The items in a line that is a job.
pub fn items(line: &[u8]) -> &[u8]
    ensures { result.now ≡ items_of line.now }
{
    let (_, after_name) = split_word(words(line));
    let (_, after_task) = split_word(after_name);
    &after_task[..without_spaces(after_task)]
}
