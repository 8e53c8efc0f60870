// Whether the places past the last task and the last lock hold 0.
ghost use Rattle.std.specs.Prelude.{◌≡◌};
ghost use Rattle.rules.specs.Soundness.SoundTest.{spare_test};

use figures::spare::spare;
use rules::plan::Plan;
use rules::state::State;

#[tactic(auto, using(crate::proofs::Tests::turns), unfolding(rules::specs::Soundness::SoundTest::spare_test))]
pub fn unused_sound(p: &Plan, s: &State) -> bool
    ensures { result ≡ spare_test p.now s.now }
{
    spare(&s.released, p.tasks)
        && spare(&s.kept, p.tasks)
        && spare(&s.delay, p.tasks)
        && spare(&s.depth, p.tasks)
        && spare(&s.takes, p.tasks)
        && spare(&s.saved, p.tasks)
        && spare(&s.units, p.locks)
        && spare(&s.owner, p.locks)
}
