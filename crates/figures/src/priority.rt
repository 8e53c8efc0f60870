// RULES 1.11: the two kinds of priority, words of user space and records of the kernel. Here alone a
// number of the one kind becomes one of the other or meets it; and a byte of a table becomes one of
// either, or comes back. These are functions and no `From` of the types, so that whoever changes the kind
// has to name this module. Priorities of one kind are compared as they are.
ghost use Rattle.std.specs.Prelude.{◌≡◌, leb, ltb};
ghost use Rattle.rules.specs.Schedulers.Lazy.{calls_for, cut_to};

use rules::priority::{KernelPriority, UserPriority};

// A base, a maximum or a kept priority as it stands in a table.
pub fn kernel_of(x: u8) -> KernelPriority
    ensures { result.0 ≡ x }
{
    KernelPriority(x)
}

pub fn kernel_byte(k: KernelPriority) -> u8
    ensures { result ≡ k.0 }
{
    k.0
}

// A ceiling as the word that it raises to, and a word as a byte of a row.
pub fn user_of(x: u8) -> UserPriority
    ensures { result.0 ≡ x }
{
    UserPriority(x)
}

pub fn user_byte(u: UserPriority) -> u8
    ensures { result ≡ u.0 }
{
    u.0
}

// The word of the task that the kernel lets run.
pub fn shown(k: KernelPriority) -> UserPriority
    ensures { result.0 ≡ k.0 }
{
    UserPriority(k.0)
}

// The kernel's record of a leaving task's word.
pub fn recorded(u: UserPriority) -> KernelPriority
    ensures { result.0 ≡ u.0 }
{
    KernelPriority(u.0)
}

// Whether the user word is strictly below a newcomer's base.
pub fn above(base: KernelPriority, user: UserPriority) -> bool
    ensures { result ≡ ltb user.0 base.0 }
{
    user.0 < base.0
}

// Whether a record is not above the user word.
pub fn at_most(k: KernelPriority, user: UserPriority) -> bool
    ensures { result ≡ leb k.0 user.0 }
{
    k.0 <= user.0
}

// The rule for a call: the word put back is strictly below the second word.
#[tactic(auto, unfolding(rules::specs::Schedulers::Lazy::calls_for))]
pub fn calls_for(back: UserPriority, next: KernelPriority) -> bool
    ensures { result ≡ calls_for back.0 next.0 }
{
    back.0 < next.0
}

// The rule for a cut: a word above its task's maximum becomes that.
pub fn cut_to(maximum: KernelPriority, user: UserPriority) -> UserPriority
    ensures { result.0 ≡ cut_to maximum.0 user.0 }
{
    shown(maximum).min(user)
}
