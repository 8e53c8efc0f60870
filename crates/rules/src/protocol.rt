ghost use Rattle.std.specs.Prelude.{◌≡◌};
ghost use Rattle.rules.specs.Schedulers.Protocol.{protocol_named, protocol_number};

// RULES 7.9: the two lazy protocols. They differ in what an entry to the kernel leaves in the second
// word: the greatest kept priority (the next word), or the user word (the kernel word).
#[derive(Clone, Copy, PartialEq, Eq)]
pub enum Protocol {
    Second = 2,
    First = 1,
}

// Its number.
impl From<Protocol> for u8 {
    ghost from_gives = { λ protocol n. n ≡ protocol_number protocol };

    #[tactic(auto, unfolding(crate::specs::Schedulers::Protocol::protocol_number))]
    fn from(protocol: Protocol) -> u8 {
        protocol as u8
    }
}

// The protocol that a number names: 1 the first, and every other number the second.
impl From<u8> for Protocol {
    ghost from_gives = { λ n protocol. protocol ≡ protocol_named n };

    fn from(number: u8) -> Protocol {
        if number == 1 {
            Protocol::First
        } else {
            Protocol::Second
        }
    }
}
