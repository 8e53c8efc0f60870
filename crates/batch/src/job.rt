// The reading of a job's text. The reply: the refusal's number or 0, its place, how many events there are, and the whole event
// space, which held 0xEE before.
use crate::wire::Reply;

const REPLY: usize = 9;

pub fn reply(text: &[u8], space: &mut [u8]) {
    space.fill(0xEE);
    let job = jobs::read_job(text, space);
    let mut out = Reply::<REPLY>::new();
    out.put_fault(job.err());
    out.put_place(job.unwrap_or(0));
    out.send();
    io::write_all(1, space);
}
