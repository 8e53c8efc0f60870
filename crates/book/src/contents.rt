// 1 to 3: the book's length, the counts, and the layout.
ghost use Rattle.std.specs.Prelude.{◌≡◌, ◌≤◌, length, position};
ghost use Rattle.rules.specs.Numbers.Refusal.{first_fault};
ghost use Rattle.rules.specs.Books.Plan.{count_fault};
ghost use Rattle.rules.specs.Books.Book.{contents, count_at, layout_fault, contents_checks};
ghost use Rattle.book.specs.Part.{index_of};

use crate::entry::{CONTENTS, PARTS, Part, bodies_end, body_at, count_at, kind_at, offset_at};
use plan::count::count_fault;
use rules::answer::Fault;
use rules::refusal::Refusal;

// Whether a part's count is out of range.
fn wrong_count(b: &[u8], part: Part) -> bool
    requires { contents ≤ length b.now }
    ensures { result ≡ count_fault (index_of part) (count_at b.now (index_of part)) }
{
    count_fault(part.index(), count_at(b, part))
}

// Whether a part's entry has a wrong kind or offset.
fn wrong_entry(b: &[u8], part: Part) -> bool
    requires { contents ≤ length b.now }
    ensures { result ≡ layout_fault b.now (index_of part) }
{
    kind_at(b, part) != part.index() + 1 || offset_at(b, part) != body_at(b, part)
}

// The first part whose count is out of range, by its place.
fn first_count(b: &[u8]) -> Option<usize>
    requires { contents ≤ length b.now }
    ensures { result ≡ position (λ part. count_fault (index_of part) (count_at b.now (index_of part))) PARTS }
{
    PARTS.iter().position(|&part| wrong_count(b, part))
}

// The first part with a wrong entry.
fn first_entry(b: &[u8]) -> Option<usize>
    requires { contents ≤ length b.now }
    ensures { result ≡ position (λ part. layout_fault b.now (index_of part)) PARTS }
{
    PARTS.iter().position(|&part| wrong_entry(b, part))
}

// 1 (place 0), 2 (the entry, 1 to 4), 3 (the entry, or 5 for the end), in this order.
pub fn first_fault(b: &[u8]) -> Result<(), Fault>
    ensures { result ≡ first_fault (contents_checks b.now) }
{
    if b.len() < CONTENTS {
        return Err(Fault {
            why: Refusal::ShortBook,
            place: 0,
        });
    }
    if let Some(e) = first_count(b) {
        return Err(Fault {
            why: Refusal::WrongCount,
            place: e + 1,
        });
    }
    if let Some(e) = first_entry(b) {
        return Err(Fault {
            why: Refusal::WrongLayout,
            place: e + 1,
        });
    }
    if bodies_end(b) != b.len() {
        return Err(Fault {
            why: Refusal::WrongLayout,
            place: 5,
        });
    }
    Ok(())
}
