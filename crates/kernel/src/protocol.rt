// RULES 7.9: the one rule in which the protocols differ, for every entry to the kernel.
ghost use Rattle.std.specs.Prelude.{◌≡◌};
ghost use Rattle.rules.specs.Schedulers.Protocol.{second_word};

use figures::priority::recorded;
use rules::priority::{KernelPriority, UserPriority};
use rules::protocol::Protocol;

// The second word: the greatest kept priority, or the user word of the task that runs.
pub fn second_word(protocol: Protocol, user: UserPriority, best: KernelPriority) -> KernelPriority
    ensures { result ≡ record { 0 = second_word protocol user.0 best.0 } }
{
    match protocol {
        Protocol::Second => best,
        Protocol::First => recorded(user),
    }
}
