// RULES 19.5: what is said of a line with a mistake, and of a refusal.
ghost use Rattle.std.specs.Prelude.{◌≡◌, ◌++◌, ◌-◌};
ghost use Rattle.rules.specs.Numbers.Refusal.{number_of};
ghost use Rattle.texts.specs.Kind.{most_of};
ghost use Rattle.page.specs.Ascii.{ascii};
ghost use Rattle.page.specs.Page.{typed};
ghost use Rattle.page.specs.Says.{filled};
ghost use Rattle.wording.specs.Meaning.{meaning_of};
ghost use Rattle.wording.specs.Mistakes.{form_of, wrong_word, mistake_of, refusal_words, refusal_at_line};

use crate::meaning::put_meaning;
use page::Page;
use rules::refusal::Refusal;
use texts::kind::{Kind, most};
use texts::line::Line;
use texts::number::Mistake;

// How a record is written.
#[tactic(auto, unfolding(crate::specs::Mistakes::form_of, page::specs::Ascii::ascii))]
fn put_form(page: &mut Page, kind: Kind)
    ensures { page.new ≡ typed page.old (form_of kind) }
{
    match kind {
        Kind::Task => page.put_text(b"task BASE MAXIMUM\n"),
        Kind::Lock => page.put_text(b"lock CEILING LIMIT\n"),
        Kind::Use => page.put_text(b"use TASK LOCK\n"),
        Kind::Release => page.put_text(b"release TASK\n"),
        Kind::Acquire => page.put_text(b"acquire LOCK\n"),
        Kind::Unlock => page.put_text(b"unlock LOCK\n"),
        Kind::Work => page.put_text(b"work UNITS\n"),
        Kind::Finish => page.put_text(b"finish\n"),
        Kind::Tick => page.put_text(b"tick\n"),
        Kind::Job => page.put_text(b"job TASK ITEMS\n"),
    }
}

// What is wrong with a word of line n.
#[tactic(auto, unfolding(crate::specs::Mistakes::wrong_word, page::specs::Ascii::ascii))]
fn put_wrong_word(page: &mut Page, mistake: Mistake, n: u64, word: u64, most: u64)
    ensures { page.new ≡ typed page.old (wrong_word mistake n word most) }
{
    let text: &[u8] = match mistake {
        Mistake::Missing => b"line @: word @ is missing; write ",
        Mistake::NoNumber => b"line @: word @ is no decimal number; write ",
        Mistake::TooLarge => b"line @: word @ is more than @; write ",
        Mistake::TooMany => b"line @: word @ is one too many; write ",
    };
    page.put_says(text, &[n, word, most]);
}

// What a refusal means, and the line's end.
#[tactic(auto, using(page::proofs::Typed::typing), unfolding(page::specs::Ascii::ascii))]
pub fn put_meaning_line(page: &mut Page, why: Refusal)
    ensures { page.new ≡ typed page.old (meaning_of why ++ ascii "\n") }
{
    put_meaning(page, why);
    page.put(b'\n');
}

// The number of a refusal, as a sentence takes it.
pub fn number_of(why: Refusal) -> u64
    ensures { result ≡ number_of why }
{
    u8::from(why) as u64
}

// A sentence with numbers, then what a refusal means, and the line's end.
#[tactic(auto, using(page::proofs::Typed::typing))]
pub(crate) fn put_refusal_line(page: &mut Page, text: &[u8], numbers: &[u64], why: Refusal)
    ensures { page.new ≡ typed page.old (filled text.now numbers.now ++ meaning_of why ++ ascii "\n") }
{
    page.put_says(text, numbers);
    put_meaning_line(page, why);
}

// A refusal.
#[tactic(auto, unfolding(crate::specs::Mistakes::refusal_words, page::specs::Ascii::ascii))]
pub fn put_refusal(page: &mut Page, why: Refusal, place: usize)
    ensures { page.new ≡ typed page.old (refusal_words why place) }
{
    put_refusal_line(page, b"refused @ @: ", &[number_of(why), place as u64], why);
}

// A refusal, with the line that it comes from.
#[tactic(auto, unfolding(crate::specs::Mistakes::refusal_at_line, page::specs::Ascii::ascii))]
pub fn put_refusal_at(page: &mut Page, why: Refusal, place: usize, n: u64)
    ensures { page.new ≡ typed page.old (refusal_at_line why place n) }
{
    let numbers = [number_of(why), place as u64, n];
    put_refusal_line(page, b"refused @ @, line @: ", &numbers, why);
}

// Of line n, which has a mistake. The numbers of a record are the words from 2 on.
#[tactic(auto, using(page::proofs::Typed::typing), unfolding(crate::specs::Mistakes::mistake_of, page::specs::Ascii::ascii))]
pub fn put_mistake(page: &mut Page, n: u64, line: Line)
    ensures { page.new ≡ typed page.old (mistake_of n line) }
{
    match line {
        Line::Blank | Line::Record(_, _) | Line::Job(_, _) => {}
        Line::Unknown => page.put_says(
            b"line @: no record has this name; the names are task, lock, use, release, acquire, unlock, work, finish, tick and job\n",
            &[n],
        ),
        Line::Wrong(kind, word, mistake) => {
            put_wrong_word(
                page,
                mistake,
                n,
                word as u64,
                most(kind, word.saturating_sub(2)) as u64,
            );
            put_form(page, kind);
        }
        Line::Refused(why, place) => put_refusal_at(page, why, place, n),
    }
}
