// RULES 19.2: the nine kinds of record that a text has, and the job, which is several.
ghost use Rattle.std.specs.Prelude.{◌≡◌, ◌≤◌};
ghost use Rattle.texts.specs.declared.kind.Kind.{Kind};
ghost use Rattle.texts.specs.Kind.{event_named, kind_named, fields_of, most_of, part_of, has_items};

#[derive(Clone, Copy)]
pub enum Kind {
    Task,
    Lock,
    Use,
    Release,
    Acquire,
    Unlock,
    Work,
    Finish,
    Tick,
    Job,
}

// Of an event or a job. Not a `match` on byte strings: of each arm the prover knows the length alone.
fn event_named(word: &[u8]) -> Option<Kind>
    ensures { result ≡ event_named word.now }
{
    if word == b"release".as_slice() {
        Some(Kind::Release)
    } else if word == b"acquire".as_slice() {
        Some(Kind::Acquire)
    } else if word == b"unlock".as_slice() {
        Some(Kind::Unlock)
    } else if word == b"work".as_slice() {
        Some(Kind::Work)
    } else if word == b"finish".as_slice() {
        Some(Kind::Finish)
    } else if word == b"tick".as_slice() {
        Some(Kind::Tick)
    } else if word == b"job".as_slice() {
        Some(Kind::Job)
    } else {
        None
    }
}

// The kind of record that a word names, or a job.
pub fn kind_named(word: &[u8]) -> Option<Kind>
    ensures { result ≡ kind_named word.now }
{
    if word == b"task".as_slice() {
        Some(Kind::Task)
    } else if word == b"lock".as_slice() {
        Some(Kind::Lock)
    } else if word == b"use".as_slice() {
        Some(Kind::Use)
    } else {
        event_named(word)
    }
}

// How many numbers it has.
#[tactic(auto, unfolding(crate::specs::Kind::fields_of))]
pub fn fields(kind: Kind) -> u8
    ensures value { result ≡ fields_of kind }
    ensures upper_bound { result ≤ 2 }
{
    match kind {
        Kind::Task | Kind::Lock | Kind::Use => 2,
        Kind::Release | Kind::Acquire | Kind::Unlock | Kind::Work | Kind::Job => 1,
        Kind::Finish | Kind::Tick => 0,
    }
}

// The most that its number w may be. Of a lock's two its ceiling is one byte, its limit two.
#[tactic(auto, unfolding(crate::specs::Kind::most_of))]
pub fn most(kind: Kind, w: u8) -> u32
    ensures value { result ≡ most_of kind w }
    ensures upper_bound { result ≤ 65535 }
{
    match kind {
        Kind::Lock => if w == 0 { 255 } else { 65535 },
        Kind::Work => 65535,
        Kind::Task | Kind::Use | Kind::Release | Kind::Acquire => 255,
        Kind::Unlock | Kind::Finish | Kind::Tick | Kind::Job => 255,
    }
}

// The part of a book that it belongs to: 0 tasks, 1 locks, 2 uses, 3 events.
#[tactic(auto, unfolding(crate::specs::Kind::part_of))]
pub fn part(kind: Kind) -> u8
    ensures { result ≡ part_of kind }
{
    match kind {
        Kind::Task => 0,
        Kind::Lock => 1,
        Kind::Use => 2,
        Kind::Release | Kind::Acquire | Kind::Unlock | Kind::Work => 3,
        Kind::Finish | Kind::Tick | Kind::Job => 3,
    }
}

// Whether items stand after its numbers, or may.
#[tactic(auto, unfolding(crate::specs::Kind::has_items))]
pub fn has_items(kind: Kind) -> bool
    ensures { result ≡ has_items kind }
{
    matches!(kind, Kind::Job)
}
