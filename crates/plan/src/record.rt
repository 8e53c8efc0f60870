// The records of a plan, each from its number, low byte first.
ghost use Rattle.std.specs.Prelude.{◌≡◌, ◌+◌, ◌*◌};
ghost use Rattle.rules.specs.Books.Load.{task_base, task_maximum, lock_ceiling, lock_second, lock_limit, use_task, use_lock};
ghost use Rattle.rules.specs.Books.Plan.{lock_fault, task_fault};

#[derive(Clone, Copy)]
pub struct TaskRecord {
    pub base: u8,
    pub maximum: u8,
}

impl From<u16> for TaskRecord {
    ghost from_gives = { λ w r. (r.base ≡ task_base w) × (r.maximum ≡ task_maximum w) };

    fn from(w: u16) -> Self {
        let [base, maximum] = w.to_le_bytes();
        TaskRecord { base, maximum }
    }
}

impl TaskRecord {
    // 4: no base, or a maximum below it.
    #[tactic(auto, using(rules::proofs::Numbers::Choice::tests), unfolding(rules::specs::Books::Plan::task_fault))]
    pub fn is_wrong(self) -> bool
        ensures { result ≡ task_fault self.base self.maximum }
    {
        self.base == 0 || self.maximum < self.base
    }
}

// The second byte has no use.
#[derive(Clone, Copy)]
pub struct LockRecord {
    pub ceiling: u8,
    pub second: u8,
    pub limit: u16,
}

impl From<u32> for LockRecord {
    ghost from_gives = { λ w r. (r.ceiling ≡ lock_ceiling w) × (r.second ≡ lock_second w) × (r.limit ≡ lock_limit w) };

    fn from(w: u32) -> Self {
        let [ceiling, second, low, high] = w.to_le_bytes();
        LockRecord {
            ceiling,
            second,
            limit: u16::from_le_bytes([low, high]),
        }
    }
}

impl LockRecord {
    // 5: no ceiling, no limit, or something in the second byte.
    #[tactic(auto, using(rules::proofs::Numbers::Choice::tests), unfolding(rules::specs::Books::Plan::lock_fault))]
    pub fn is_wrong(self) -> bool
        ensures { result ≡ lock_fault self.ceiling self.second self.limit }
    {
        self.ceiling == 0 || self.second != 0 || self.limit == 0
    }
}

#[derive(Clone, Copy)]
pub struct UseRecord {
    pub task: u8,
    pub lock: u8,
}

impl From<u16> for UseRecord {
    ghost from_gives = { λ w r. (r.task ≡ use_task w) × (r.lock ≡ use_lock w) };

    fn from(w: u16) -> Self {
        let [task, lock] = w.to_le_bytes();
        UseRecord { task, lock }
    }
}

impl UseRecord {
    // Uses are in order by task, and by lock where the task is the same. It is the order of one number, and not a
    // derived one, which asks twice: with that a load of 3,200 uses took a third longer.
    pub fn key(self) -> u16
        ensures { result ≡ self.task * 256 + self.lock }
    {
        u16::from_be_bytes([self.task, self.lock])
    }
}
