// The lines of the report.
ghost use Rattle.std.specs.Prelude.{◌≡◌, [], ◌∷◌, map, ◌+◌, ◌^◌, ◌<◌};
ghost use Rattle.page.specs.Decimal.{digits};
ghost use Rattle.page.specs.Page.{typed};
ghost use Rattle.report.specs.Report.{space, spaced, line, header, runner, row_line, row_lines, calls_line, delayed_line, refused_line};

use crate::row::{call, next, running, user};
use page::Page;
use rules::capacity::NOBODY;
use rules::refusal::Refusal;

#[tactic(auto, unfolding(crate::specs::Report::header, crate::specs::Report::line, crate::specs::Report::spaced))]
pub fn put_header(page: &mut Page)
    ensures { page.new ≡ typed page.old header }
{
    page.put_text(b"event running user next call\n");
}

// The running task, or `-` for nobody, with a space before it.
#[tactic(auto, using(page::proofs::Typed::typing, crate::proofs::Printed::runner_nobody, crate::proofs::Printed::runner_task))]
fn put_runner(page: &mut Page, t: u64)
    ensures { page.new ≡ typed page.old (space ∷ runner t) }
{
    page.put(b' ');
    if t == NOBODY as u64 {
        page.put(b'-');
    } else {
        page.put_number(t);
    }
}

// The line of the event k: its number counts from 1.
#[tactic(auto, using(page::proofs::Typed::typing), unfolding(crate::specs::Report::row_line, crate::specs::Report::row_words, crate::specs::Report::line, crate::specs::Report::spaced))]
fn put_row(page: &mut Page, rows: &[u8], k: usize)
    requires { k + 1 < 2 ^ 64 }
    ensures { page.new ≡ typed page.old (row_line rows.now k) }
{
    page.put_number(k as u64 + 1);
    put_runner(page, running(rows, k));
    page.put_field(user(rows, k));
    page.put_field(next(rows, k));
    page.put_field(call(rows, k));
    page.put(b'\n');
}

// The lines of the first n events.
#[tactic(auto, using(page::proofs::Typed::typing, crate::proofs::Printed::rows_none, crate::proofs::Printed::rows_more))]
pub fn put_rows(page: &mut Page, rows: &[u8], n: usize)
    ensures { page.new ≡ typed page.old (row_lines rows.now n) }
{
    for k in 0..n {
        put_row(page, rows, k);
    }
}

// A line of a word and two numbers.
#[tactic(auto, using(page::proofs::Typed::typing), unfolding(crate::specs::Report::line, crate::specs::Report::spaced))]
fn put_pair(page: &mut Page, word: &[u8], x: u64, y: u64)
    ensures { page.new ≡ typed page.old (line word.now (digits x ∷ digits y ∷ [])) }
{
    page.put_text(word);
    page.put_field(x);
    page.put_field(y);
    page.put(b'\n');
}

#[tactic(auto, unfolding(crate::specs::Report::calls_line))]
pub fn put_calls(page: &mut Page, lazy: u32, eager: u32)
    ensures { page.new ≡ typed page.old (calls_line lazy eager) }
{
    put_pair(page, b"calls", lazy as u64, eager as u64);
}

#[tactic(auto, unfolding(crate::specs::Report::refused_line))]
pub fn put_refused(page: &mut Page, why: Refusal, place: usize)
    ensures { page.new ≡ typed page.old (refused_line why place) }
{
    put_pair(page, b"refused", u8::from(why) as u64, place as u64);
}

// Numbers, each with a space before it.
#[tactic(auto, using(page::proofs::Typed::typing, std::proofs::lemmas::Grind::common_steps, crate::proofs::Printed::spaced_none, crate::proofs::Printed::spaced_more))]
fn put_fields(page: &mut Page, xs: &[u16])
    ensures { page.new ≡ typed page.old (spaced (map digits xs.now)) }
{
    for &x in xs {
        page.put_field(x as u64);
    }
}

#[tactic(auto, using(page::proofs::Typed::typing), unfolding(crate::specs::Report::delayed_line, crate::specs::Report::line))]
pub fn put_delayed(page: &mut Page, delay: &[u16])
    ensures { page.new ≡ typed page.old (delayed_line delay.now) }
{
    page.put_text(b"delayed");
    put_fields(page, delay);
    page.put(b'\n');
}
