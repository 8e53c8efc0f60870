// RULES 19.3: a record from its numbers.
ghost use Rattle.std.specs.Prelude.{◌≡◌, ◌≤◌};
ghost use Rattle.texts.specs.Kind.{record_of};

use crate::kind::Kind;

// The record as one number, low byte first, from its numbers; of a job the release that it starts with.
#[tactic(auto, unfolding(crate::specs::Kind::record_of, rules::specs::Books::Event::kind_of, rules::specs::Books::Event::id_of, rules::specs::Books::Event::amount_of))]
pub fn record(kind: Kind, a: u32, b: u32) -> u32
    requires { (a ≤ 65535) × (b ≤ 65535) }
    ensures { result ≡ record_of kind a b }
{
    match kind {
        Kind::Task => a + b * 256,
        Kind::Lock => a + b * 65536,
        Kind::Use => a + b * 256,
        Kind::Release => 1 + a * 256,
        Kind::Acquire => 2 + a * 256,
        Kind::Unlock => 3 + a * 256,
        Kind::Work => 4 + a * 65536,
        Kind::Finish => 5,
        Kind::Tick => 6,
        Kind::Job => 1 + a * 256,
    }
}
