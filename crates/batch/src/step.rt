// A single step by a protocol. It is handed a plan, a state and an event's four bytes (kind, id, amount; work of 0
// may be handed in too). The reply: the refusal's number or 0, the lazy calls, 1 or 0, and the
// state after it, figure by figure.
use crate::each_figure::{STATE_SIZE, put_state, read_plan, read_state};
use crate::wire::{Input, Reply};
use book::record::event_of;
use rules::answer::{answer_calls, answer_number};
use rules::protocol::Protocol;

const REPLY: usize = 2 + STATE_SIZE;

pub fn reply(protocol: Protocol, input: &[u8]) {
    let mut input = Input::new(input);
    let plan = read_plan(&mut input);
    let before = read_state(&mut input);
    let [kind, id]: [u8; 2] = input.take();
    let amount = u16::from_le_bytes(input.take());
    let stepped = scheduler::step(protocol, plan, before, event_of(kind, id, amount));
    let mut out = Reply::<REPLY>::new();
    out.put(&[answer_number(stepped.answer), answer_calls(stepped.answer)]);
    put_state(&mut out, &stepped.state);
    out.send();
}
