// RULES 10.2: one eager call where the priority after an acquire or an unlock differs from before. It is
// told from the user word, since in a sound state that is the acting task's priority.
ghost use Rattle.std.specs.Prelude.{◌≡◌, ◌≤◌};
ghost use Rattle.rules.specs.Schedulers.FiguresAfter.{differs};

use rules::priority::UserPriority;

pub fn eager_calls(before: UserPriority, after: UserPriority) -> u32
    ensures { (result ≡ differs before.0 after.0) × (result ≤ 1) }
{
    if before == after { 0 } else { 1 }
}
