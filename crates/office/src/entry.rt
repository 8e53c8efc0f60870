// RULES 19.8: the line of an entry of the contents.
ghost use Rattle.std.specs.Prelude.{◌≡◌, ◌<◌};
ghost use Rattle.page.specs.Page.{typed};
ghost use Rattle.office.specs.Show.{entry_of};

use book::look::entry_at;
use page::Page;
use wording::record::put_entry;

// Entry e of the contents.
#[tactic(auto, unfolding(crate::specs::Show::entry_of))]
pub fn put_entry_of(page: &mut Page, b: &[u8], e: usize)
    requires { e < 4 }
    ensures { page.new ≡ typed page.old (entry_of b.now e) }
{
    let entry = entry_at(b, e);
    put_entry(page, e + 1, entry.kind, entry.count, entry.offset);
}
