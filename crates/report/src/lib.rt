// RULES 15: the text of the replay's report.
#![tactic(auto)]

mod lines;
pub mod row;

ghost use Rattle.std.specs.Prelude.{◌≡◌, min, length};
ghost use Rattle.rules.specs.Numbers.Place.{stored};
ghost use Rattle.page.specs.Page.{typed};
ghost use Rattle.report.specs.Report.{report_of};

use page::Page;
use rules::answer::Fault;

#[tactic(auto, using(page::proofs::Typed::typing), unfolding(crate::specs::Report::report_of))]
fn put_report(
    page: &mut Page,
    verdict: Result<(), Fault>,
    accepted: usize,
    rows: &[u8],
    lazy: u32,
    eager: u32,
    delay: &[u16],
)
    ensures { page.new ≡ typed page.old (report_of verdict accepted rows.now lazy eager delay.now) }
{
    lines::put_header(page);
    lines::put_rows(page, rows, accepted);
    match verdict {
        Err(Fault { why, place }) => lines::put_refused(page, why, place),
        Ok(()) => {
            lines::put_calls(page, lazy, eager);
            lines::put_delayed(page, delay);
        }
    }
}

// The report of a run that came to a verdict after as many accepted events, with its row bytes, its
// calls and the delay of each task. It is cut where `out` ends, and the answer is how many bytes of
// it stand there.
#[tactic(auto, using(page::proofs::Typed::typed_new))]
pub fn report(
    out: &mut [u8],
    verdict: Result<(), Fault>,
    accepted: usize,
    rows: &[u8],
    lazy: u32,
    eager: u32,
    delay: &[u16],
) -> usize
    ensures out_after { out.new ≡ stored out.old 0 (report_of verdict accepted rows.now lazy eager delay.now) }
    ensures value { result ≡ min (length (report_of verdict accepted rows.now lazy eager delay.now)) (length out.old) }
{
    let mut page = Page::new(out);
    put_report(&mut page, verdict, accepted, rows, lazy, eager, delay);
    page.place()
}
