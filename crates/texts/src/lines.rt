// RULES 19.1, 19.3, 19.4: the lines of a text, read one after the other.
ghost use Rattle.std.specs.Prelude.{◌≡◌, [], ◌∷◌};
ghost use Rattle.page.specs.Page.{typed};
ghost use Rattle.rules.specs.Numbers.Place.{tabulate};
ghost use Rattle.jobs.specs.Sheet.{record_in};
ghost use Rattle.texts.specs.Line.{items_of, item_numbers};
ghost use Rattle.texts.specs.Lines.{lines_of, read_lines, of_part, records_of, is_wrong, first_wrong, count_in, line_of_record};

use crate::line::{JOB_ROOM, Line, items, line_of};
use jobs::read_job;
use jobs::record::record_at;
use page::Page;

// Whether it has a mistake.
#[tactic(auto, unfolding(crate::specs::Lines::is_wrong))]
fn is_wrong(line: Line) -> bool
    ensures { result ≡ is_wrong line }
{
    match line {
        Line::Blank | Line::Record(_, _) | Line::Job(_, _) => false,
        Line::Unknown | Line::Wrong(_, _, _) | Line::Refused(_, _) => true,
    }
}

// The first line with a mistake: its number from 1, and what it says.
pub fn first_wrong(text: &[u8]) -> Option<(usize, Line)>
    ensures { result ≡ first_wrong 0 (read_lines text.now) }
{
    for (i, bytes) in text.split(|&c| c == b'\n').enumerate() {
        let line = line_of(bytes);
        if is_wrong(line) {
            return Some((i + 1, line));
        }
    }
    None
}

// The numbers of the first n records in event space.
#[tactic(auto, using(crate::proofs::Split::records_start, crate::proofs::Split::records_next, crate::proofs::Split::records_end))]
fn put_records(page: &mut Page<u32>, space: &[u8], n: usize)
    ensures { page.new ≡ typed page.old (tabulate n (record_in space.now)) }
{
    for i in 0..n {
        page.put(record_at(space, i));
    }
}

// The numbers of the events of a job's items; there are none where these are refused.
fn put_items(page: &mut Page<u32>, items: &[u8])
    ensures { page.new ≡ typed page.old (item_numbers items.now) }
{
    let mut space = [0u8; JOB_ROOM];
    if let Ok(count) = read_job(items, &mut space) {
        put_records(page, &space, count);
    }
}

// The numbers of a line that says records of this part.
#[tactic(auto, using(page::proofs::Typed::typing, page::proofs::Choice::choosing), unfolding(crate::specs::Lines::of_part))]
fn keep(page: &mut Page<u32>, line: Line, bytes: &[u8], part: u8)
    ensures { page.new ≡ typed page.old (of_part part line (items_of bytes.now)) }
{
    match line {
        Line::Record(p, number) => {
            if p == part {
                page.put(number);
            }
        }
        Line::Job(number, _) => {
            if part == 3 {
                page.put(number);
                put_items(page, items(bytes));
            }
        }
        Line::Blank | Line::Unknown | Line::Wrong(_, _, _) | Line::Refused(_, _) => {}
    }
}

// The records of a part, 0 to 3, as many as the page has room for. Of a part with another number there are none, so this is a number and no enum.
pub fn collect(text: &[u8], part: u8, page: &mut Page<u32>)
    ensures { page.new ≡ typed page.old (records_of part (lines_of text.now)) }
{
    for bytes in text.split(|&c| c == b'\n') {
        keep(page, line_of(bytes), bytes, part);
    }
}

// How many records of a part a line says.
#[tactic(auto, unfolding(crate::specs::Lines::count_in))]
fn count_in(line: Line, part: u8) -> usize
    ensures { result ≡ count_in part line }
{
    match line {
        Line::Record(p, _) => if p == part { 1 } else { 0 },
        Line::Job(_, n) => if part == 3 { n } else { 0 },
        Line::Blank | Line::Unknown | Line::Wrong(_, _, _) | Line::Refused(_, _) => 0,
    }
}

// The number of the line of record k of a part; 0 where there are not so many.
pub fn line_of_record(text: &[u8], part: u8, k: usize) -> usize
    ensures { result ≡ line_of_record part k 0 (read_lines text.now) }
{
    let mut left = k;
    for (i, bytes) in text.split(|&c| c == b'\n').enumerate() {
        let count = count_in(line_of(bytes), part);
        if left < count {
            return i + 1;
        }
        left -= count;
    }
    0
}
