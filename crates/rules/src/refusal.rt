ghost use Rattle.std.specs.Prelude.{◌≡◌};
ghost use Rattle.rules.specs.Numbers.Refusal.{number_of};

// Why a book, a plan, a state, an event or a job is refused, each with its number of RULES 5.1. There is none for 16, which
// is withdrawn.
#[derive(Clone, Copy, PartialEq, Eq)]
pub enum Refusal {
    ShortBook = 1,
    WrongCount = 2,
    WrongLayout = 3,
    WrongTask = 4,
    WrongLock = 5,
    WrongUse = 6,
    WrongCeiling = 7,
    WrongEvent = 8,
    ShortRows = 9,
    Unsound = 10,
    Exhausted = 11,
    NobodyRuns = 12,
    Unknown = 13,
    AlreadyReleased = 14,
    NotDeclared = 15,
    OpenElsewhere = 17,
    RowFull = 18,
    NotNewest = 19,
    NoWork = 20,
    PastLimit = 21,
    StillOpen = 22,
    ShortBuffer = 23,
    AboveMaximum = 24,
    WrongJob = 25,
    ShortSpace = 26,
}

// Its number.
impl From<Refusal> for u8 {
    ghost from_gives = { λ why n. n ≡ number_of why };

    #[tactic(auto, unfolding(crate::specs::Numbers::Refusal::number_of))]
    fn from(why: Refusal) -> u8 {
        why as u8
    }
}
