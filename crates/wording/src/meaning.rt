// RULES 19.6: what the number of a refusal means, in words.
ghost use Rattle.std.specs.Prelude.{◌≡◌};
ghost use Rattle.page.specs.Page.{typed};
ghost use Rattle.wording.specs.Meaning.{meaning_of};

use page::Page;
use rules::capacity::{MAX_ACCEPTED, MAX_EVENTS, MAX_LOCKS, MAX_TAKES, MAX_TASKS, MAX_USES};
use rules::refusal::Refusal;

#[tactic(auto, unfolding(crate::specs::Meaning::meaning_of, page::specs::Ascii::ascii))]
pub fn put_meaning(page: &mut Page, why: Refusal)
    ensures { page.new ≡ typed page.old (meaning_of why) }
{
    match why {
        Refusal::ShortBook => page.put_text(b"the book has fewer than 32 bytes"),
        Refusal::WrongCount => page.put_says(
            b"a book has 1 to @ tasks, and at most @ locks, @ uses and @ events",
            &[
                MAX_TASKS as u64,
                MAX_LOCKS as u64,
                MAX_USES as u64,
                MAX_EVENTS as u64,
            ],
        ),
        Refusal::WrongLayout => page.put_text(
            b"an entry has another kind or offset than it should, or the book does not end with its last body",
        ),
        Refusal::WrongTask => page.put_text(
            b"a task's base is 0, or its maximum is below its base",
        ),
        Refusal::WrongLock => page.put_text(
            b"a lock's ceiling or limit is 0, or its second byte is not",
        ),
        Refusal::WrongUse => page.put_text(
            b"a use names no task or lock of the plan, or does not come after the use before it",
        ),
        Refusal::WrongCeiling => page.put_text(
            b"a lock has fewer than two users, or its ceiling is not their highest base",
        ),
        Refusal::WrongEvent => page.put_text(
            b"an event has no such kind, something in a field that it does not use, or no work to do",
        ),
        Refusal::ShortRows => page.put_text(b"there are fewer than four row bytes for each event"),
        Refusal::Unsound => page.put_text(b"the state is not sound"),
        Refusal::Exhausted => page.put_says(
            b"@ events were accepted already",
            &[MAX_ACCEPTED as u64],
        ),
        Refusal::NobodyRuns => page.put_text(b"nobody runs who could do it"),
        Refusal::Unknown => page.put_text(b"the plan has no such task or lock"),
        Refusal::AlreadyReleased => page.put_text(b"the task is released already"),
        Refusal::NotDeclared => page.put_text(b"the running task may not use the lock"),
        Refusal::OpenElsewhere => page.put_text(b"another task has the lock open"),
        Refusal::RowFull => page.put_says(
            b"the running task has @ takes that it has not given back",
            &[MAX_TAKES as u64],
        ),
        Refusal::NotNewest => page.put_text(
            b"the newest take of the running task is not of this lock",
        ),
        Refusal::NoWork => page.put_text(b"the work is 0 units"),
        Refusal::PastLimit => page.put_text(b"the work would take an open section past its limit"),
        Refusal::StillOpen => page.put_text(b"the task finishes with a lock open"),
        Refusal::ShortBuffer => page.put_text(b"the buffer is shorter than the book"),
        Refusal::AboveMaximum => page.put_text(
            b"a use names a lock whose ceiling is above the task's maximum",
        ),
        Refusal::WrongJob => page.put_text(
            b"a job goes like w2 [0 w1], one space apart, with units 1 to 65535, locks 0 to 31 and at most 8 deep",
        ),
        Refusal::ShortSpace => page.put_text(
            b"there are fewer than four bytes of event space for each event of the job",
        ),
    }
}
