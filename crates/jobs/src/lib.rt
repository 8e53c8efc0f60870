// RULES 20: jobs as they are drawn, with sections in brackets, read into event records.
#![tactic(auto)]

mod form;
mod read;
pub mod record;
mod space;
mod text;

ghost use Rattle.std.specs.Prelude.{◌≡◌, ◌*◌, ◌≤◌};
ghost use Rattle.jobs.specs.Job.{job_with, job_answer, read_with, job_of};

use crate::read::scan;
use rules::answer::Fault;
use rules::refusal::Refusal;

// How many events a job's text has, or 25 and 26 of it, for so many bytes of event space. It is read into no space: nothing is
// written.
#[tactic(auto, unfolding(crate::specs::Job::job_with))]
pub fn check_job(text: &[u8], room: usize) -> Result<usize, Fault>
    ensures value { job_with result ≡ job_answer text.now room }
    ensures events_bound { (job_with result).events * 4 ≤ room }
{
    match scan(text, &mut [0u8; 1]) {
        Err(place) => Err(Fault {
            why: Refusal::WrongJob,
            place,
        }),
        Ok(count) if room / 4 < count => Err(Fault {
            why: Refusal::ShortSpace,
            place: 0,
        }),
        Ok(count) => Ok(count),
    }
}

// Reads a job's text and lays its events into `space`, four bytes an event; the bytes after them stay. Where 25 or 26 refuses
// it, nothing is written.
pub fn read_job(text: &[u8], space: &mut [u8]) -> Result<usize, Fault>
    ensures { read_with (job_with result) space.new ≡ job_of text.now space.old }
{
    let count = check_job(text, space.len())?;
    // How many they are is known by now.
    let _ = scan(text, space);
    Ok(count)
}
