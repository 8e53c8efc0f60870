// The words that the program is started with: none for the second protocol, `first` for the first, and after that `explain`
// where the replay is to be explained.
ghost use Rattle.std.specs.Prelude.{◌≡◌};
ghost use Rattle.orbeshuri.specs.Words.{report_by, words_by, by_one, by_two, asked_by};

use rules::protocol::Protocol;
use texts::word::same;

// What is asked for: a report by this protocol, and its words where it is to be explained.
#[derive(Clone, Copy)]
pub struct Asked {
    pub protocol: Protocol,
    pub explained: bool,
}

impl Asked {
    fn report(protocol: Protocol) -> Asked
        ensures { result ≡ report_by protocol }
    {
        Asked {
            protocol,
            explained: false,
        }
    }

    fn words(protocol: Protocol) -> Asked
        ensures { result ≡ words_by protocol }
    {
        Asked {
            protocol,
            explained: true,
        }
    }
}

#[tactic(auto, using(crate::proofs::Asking::asking), unfolding(page::specs::Ascii::ascii))]
fn by_one(word: &[u8]) -> Option<Asked>
    ensures { result ≡ by_one word.now }
{
    if same(word, b"first") {
        Some(Asked::report(Protocol::First))
    } else if same(word, b"explain") {
        Some(Asked::words(Protocol::Second))
    } else {
        None
    }
}

#[tactic(auto, using(crate::proofs::Asking::asking), unfolding(page::specs::Ascii::ascii))]
fn by_two(one: &[u8], two: &[u8]) -> Option<Asked>
    ensures { result ≡ by_two one.now two.now }
{
    if same(one, b"first") && same(two, b"explain") {
        Some(Asked::words(Protocol::First))
    } else {
        None
    }
}

// By how many words there are, the program's own name among them, and the first two after that name. None where they ask for
// nothing.
#[tactic(auto, using(crate::proofs::Asking::counts))]
pub fn asked_by(count: usize, one: &[u8], two: &[u8]) -> Option<Asked>
    ensures { result ≡ asked_by count one.now two.now }
{
    match count {
        0 | 1 => Some(Asked::report(Protocol::Second)),
        2 => by_one(one),
        3 => by_two(one, two),
        _ => None,
    }
}
