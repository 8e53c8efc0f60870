// RULES 19.5: the book of a text, or the line that says why there is none.
ghost use Rattle.std.specs.Prelude.{◌≡◌, ◌+◌, ◌≤◌, min, length, take};
ghost use Rattle.rules.specs.Numbers.Capacity.{max_tasks, max_uses};
ghost use Rattle.rules.specs.Numbers.Place.{stored};
ghost use Rattle.rules.specs.Numbers.Refusal.{number_of};
ghost use Rattle.rules.specs.Books.Write.{write_of, wrote_with};
ghost use Rattle.page.specs.Page.{typed};
ghost use Rattle.texts.specs.Lines.{lines_of, read_lines, records_of};
ghost use Rattle.office.specs.Compose.{too_long, entry_part, refused_part, refused_record, refused_at, refused_by, written, composed_records, compose_of};
ghost use Rattle.office.specs.Answered.{page, answered, answer_of};
ghost use Rattle.office.specs.Small.{Small};

use crate::space::TEXT_SPACE;
use book::writer::write;
use page::Page;
use plan::count::most_of;
use rules::answer::Fault;
use rules::capacity::{MAX_EVENTS, MAX_LOCKS, MAX_TASKS, MAX_USES};
use rules::refusal::Refusal;
use texts::lines::{collect, first_wrong, line_of_record};
use wording::mistake::{put_mistake, put_refusal, put_refusal_at};

// Places for one record more than there may be: then 2 is given as for all of them.
const TASK_ROOM: usize = MAX_TASKS + 1;

const LOCK_ROOM: usize = MAX_LOCKS + 1;

const USE_ROOM: usize = MAX_USES + 1;

const EVENT_ROOM: usize = MAX_EVENTS + 1;

// What composing comes to: the length of the book, and that of the line that says why there is none. One of them is 0.
#[derive(Clone, Copy)]
pub struct Made {
    pub length: usize,
    pub said: usize,
}

// Numbers of two bytes, from numbers that fit them: they stand at the front of `to`.
fn narrow<'a>(from: &[u32], to: &'a mut [u16]) -> &'a [u16]
    requires small { Small from.now }
    requires fits { length from.now ≤ length to.old }
    ensures { result.now ≡ from.now }
{
    for i in 0..from.len() {
        to[i] = (from[i] % 65536) as u16;
    }
    &to[..from.len()]
}

// The book of so many records, all as numbers of four bytes.
fn write_records(
    tasks: &[u32],
    locks: &[u32],
    uses: &[u32],
    events: &[u32],
    out: &mut [u8],
) -> Result<usize, Fault>
    requires small { Small tasks.now }
    requires small_2 { Small uses.now }
    requires tasks_len_bound { (length tasks.now ≤ max_tasks + 1) × (length uses.now ≤ max_uses + 1) }
    ensures { wrote_with result out.new ≡ write_of tasks.now locks.now uses.now events.now
        out.old }
{
    let mut narrow_tasks = [0u16; TASK_ROOM];
    let mut narrow_uses = [0u16; USE_ROOM];
    write(
        narrow(tasks, &mut narrow_tasks),
        locks,
        narrow(uses, &mut narrow_uses),
        events,
        out,
    )
}

// The records of a part at the front of `out`, as many as it has room for, and how many these are.
#[tactic(auto, using(page::proofs::Typed::typed_new))]
fn put_records(text: &[u8], part: u8, out: &mut [u32]) -> usize
    ensures out_after { out.new ≡ stored out.old 0 (records_of part (lines_of text.now)) }
    ensures value { result ≡ min (length (records_of part (lines_of text.now))) (length out.old) }
{
    let mut page = Page::new(out);
    collect(text, part, &mut page);
    page.place()
}

// That front.
#[tactic(auto, using(page::proofs::Typed::front_within, crate::proofs::Cuts::kept_front))]
fn kept<'a>(text: &[u8], part: u8, out: &'a mut [u32]) -> &'a [u32]
    ensures { result.now ≡ take (length out.old) (records_of part (lines_of text.now)) }
{
    let n = put_records(text, part, out);
    &out[..n]
}

// The book of a text's records.
fn write_text(text: &[u8], out: &mut [u8]) -> Result<usize, Fault>
    ensures { wrote_with result out.new ≡ written (lines_of text.now) out.old }
{
    let mut tasks = [0u32; TASK_ROOM];
    let mut locks = [0u32; LOCK_ROOM];
    let mut uses = [0u32; USE_ROOM];
    let mut events = [0u32; EVENT_ROOM];
    write_records(
        kept(text, 0, &mut tasks),
        kept(text, 1, &mut locks),
        kept(text, 2, &mut uses),
        kept(text, 3, &mut events),
        out,
    )
}

// The part that an entry of the contents belongs to.
#[tactic(auto, using(page::proofs::Choice::choosing), unfolding(crate::specs::Compose::entry_part))]
fn entry_part(e: usize) -> u8
    ensures { result ≡ entry_part e }
{
    match e {
        1 => 0,
        2 => 1,
        3 => 2,
        _ => 3,
    }
}

// The part and the record that a refusal names.
#[tactic(auto, using(crate::proofs::Composing::parts))]
fn refused_part(why: Refusal, place: usize) -> u8
    ensures { result ≡ refused_part (number_of why) place }
{
    match why {
        Refusal::WrongCount => entry_part(place),
        Refusal::WrongTask => 0,
        Refusal::WrongLock | Refusal::WrongCeiling => 1,
        Refusal::WrongEvent => 3,
        _ => 2,
    }
}

#[tactic(auto, using(crate::proofs::Composing::records))]
fn refused_record(why: Refusal, place: usize) -> usize
    ensures { result ≡ refused_record (number_of why) place }
{
    if why == Refusal::WrongCount {
        most_of(entry_part(place) as usize)
    } else {
        place
    }
}

// A refusal, with its line where one can be named.
#[tactic(auto, using(page::proofs::Choice::choosing), unfolding(crate::specs::Compose::refused_at))]
fn put_refused_at(page: &mut Page, n: usize, why: Refusal, place: usize)
    ensures { page.new ≡ typed page.old (refused_at n why place) }
{
    if n == 0 {
        put_refusal(page, why, place);
    } else {
        put_refusal_at(page, why, place, n as u64);
    }
}

#[tactic(auto, unfolding(crate::specs::Compose::refused_by))]
fn put_refused_by(text: &[u8], page: &mut Page, why: Refusal, place: usize)
    ensures { page.new ≡ typed page.old (refused_by (read_lines text.now) why place) }
{
    let record = refused_record(why, place);
    let n = line_of_record(text, refused_part(why, place), record);
    put_refused_at(page, n, why, place);
}

// A text without a mistake: the length of its book, which is 0 where there is none.
fn compose_records(text: &[u8], out: &mut [u8], page: &mut Page) -> usize
    ensures value { result ≡ (composed_records text.now out.old).length }
    ensures out_after { out.new ≡ (composed_records text.now out.old).bytes }
    ensures page_after { page.new ≡ typed page.old (composed_records text.now out.old).said }
{
    match write_text(text, out) {
        Ok(length) => length,
        Err(Fault { why, place }) => {
            put_refused_by(text, page, why, place);
            0
        }
    }
}

#[tactic(auto, unfolding(crate::specs::Compose::too_long, page::specs::Ascii::ascii))]
fn put_too_long(page: &mut Page)
    ensures { page.new ≡ typed page.old too_long }
{
    page.put_says(b"the text has more than @ bytes\n", &[TEXT_SPACE as u64]);
}

// The same of any text.
#[tactic(auto, using(crate::proofs::Composing::wholes))]
fn compose_text(text: &[u8], out: &mut [u8], page: &mut Page) -> usize
    ensures value { result ≡ (compose_of text.now out.old).length }
    ensures out_after { out.new ≡ (compose_of text.now out.old).bytes }
    ensures page_after { page.new ≡ typed page.old (compose_of text.now out.old).said }
{
    if text.len() > TEXT_SPACE {
        put_too_long(page);
        return 0;
    }
    match first_wrong(text) {
        None => compose_records(text, out, page),
        Some((n, line)) => {
            put_mistake(page, n as u64, line);
            0
        }
    }
}

// The book at the start of `out`, or the line that says why there is none at the start of `said`, cut where that ends. All other
// bytes stay.
#[tactic(auto, using(page::proofs::Typed::typed_new))]
pub fn compose(text: &[u8], out: &mut [u8], said: &mut [u8]) -> Made
    ensures { answered result.length out.new (page said.new result.said)
        ≡ answer_of (compose_of text.now out.old) (page said.old 0) }
{
    let mut page = Page::new(said);
    let length = compose_text(text, out, &mut page);
    Made {
        length,
        said: page.place(),
    }
}
