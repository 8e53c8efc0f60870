// The six events: a release names a task, an acquire and an unlock a lock, work its units.
#[derive(Clone, Copy, PartialEq, Eq)]
pub enum Event {
    Release(u8),
    Acquire(u8),
    Unlock(u8),
    Work(u16),
    Finish,
    Tick,
}
