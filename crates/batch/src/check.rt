// The check of a book. The reply: the refusal's number or 0, its place, the place of the event body,
// and the plan figure by figure.
use crate::each_figure::{PLAN_SIZE, put_plan};
use crate::wire::Reply;
use rules::answer::Opened;
use rules::plan::blank;

const REPLY: usize = 9 + PLAN_SIZE;

pub fn reply(book: &[u8], room: usize) {
    let checked = book::check(book, room);
    let (events, plan) = match checked {
        Ok(Opened { plan, events }) => (events, plan),
        Err(_) => (0, blank()),
    };
    let mut out = Reply::<REPLY>::new();
    out.put_fault(checked.err());
    out.put_place(events);
    put_plan(&mut out, &plan);
    out.send();
}
