// A plan and a state, figure by figure. A plan: its tasks and its locks, eight bytes each, then the
// bases, maxima, ceilings, limits and uses. A state: the accepted events, who runs, the two words and the two
// counts of calls; of each task the release numbers, kept priorities, delays, numbers of takes, their rows
// and the rows of saved words; of each lock the units and the owners. Every array has all its places.
use crate::wire::{Input, Reply};
use rules::capacity::{MAX_LOCKS, MAX_TASKS};
use rules::plan::Plan;
use rules::priority::{KernelPriority, UserPriority};
use rules::state::{Head, State};
use std::array;

pub const PLAN_SIZE: usize = 16 + MAX_TASKS * 6 + MAX_LOCKS * 3;

const HEAD_SIZE: usize = 15;

pub const STATE_SIZE: usize = HEAD_SIZE + MAX_TASKS * 24 + MAX_LOCKS * 3;

pub fn read_plan(input: &mut Input) -> Plan {
    Plan {
        tasks: usize::from_le_bytes(input.take()),
        locks: usize::from_le_bytes(input.take()),
        base: input.take(),
        maximum: input.take(),
        ceiling: input.take(),
        limit: array::from_fn(|_| u16::from_le_bytes(input.take())),
        uses: array::from_fn(|_| u32::from_le_bytes(input.take())),
    }
}

pub fn put_plan<const N: usize>(reply: &mut Reply<N>, plan: &Plan) {
    reply.put_few(plan.tasks.to_le_bytes());
    reply.put_few(plan.locks.to_le_bytes());
    reply.put(&plan.base);
    reply.put(&plan.maximum);
    reply.put(&plan.ceiling);
    for limit in plan.limit {
        reply.put_few(limit.to_le_bytes());
    }
    for uses in plan.uses {
        reply.put_few(uses.to_le_bytes());
    }
}

fn read_head(input: &mut Input) -> Head {
    Head {
        accepted: u32::from_le_bytes(input.take()),
        running: u8::from_le_bytes(input.take()),
        user: UserPriority(u8::from_le_bytes(input.take())),
        next: KernelPriority(u8::from_le_bytes(input.take())),
        lazy: u32::from_le_bytes(input.take()),
        eager: u32::from_le_bytes(input.take()),
    }
}

fn put_head<const N: usize>(reply: &mut Reply<N>, head: &Head) {
    reply.put_few(head.accepted.to_le_bytes());
    reply.put(&[head.running, head.user.0, head.next.0]);
    reply.put_few(head.lazy.to_le_bytes());
    reply.put_few(head.eager.to_le_bytes());
}

pub fn read_state(input: &mut Input) -> State {
    State {
        head: read_head(input),
        released: array::from_fn(|_| u32::from_le_bytes(input.take())),
        kept: input.take(),
        delay: array::from_fn(|_| u16::from_le_bytes(input.take())),
        depth: input.take(),
        takes: array::from_fn(|_| u64::from_le_bytes(input.take())),
        saved: array::from_fn(|_| u64::from_le_bytes(input.take())),
        units: array::from_fn(|_| u16::from_le_bytes(input.take())),
        owner: input.take(),
    }
}

pub fn put_state<const N: usize>(reply: &mut Reply<N>, state: &State) {
    put_head(reply, &state.head);
    for number in state.released {
        reply.put_few(number.to_le_bytes());
    }
    reply.put(&state.kept);
    for delay in state.delay {
        reply.put_few(delay.to_le_bytes());
    }
    reply.put(&state.depth);
    for row in state.takes {
        reply.put_few(row.to_le_bytes());
    }
    for row in state.saved {
        reply.put_few(row.to_le_bytes());
    }
    for units in state.units {
        reply.put_few(units.to_le_bytes());
    }
    reply.put(&state.owner);
}
