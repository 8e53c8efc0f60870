// RULES 16.10: the text of a job read into event records.
ghost use Rattle.std.specs.Prelude.{◌≡◌};
ghost use Rattle.jobs.specs.Job.{job_of, job_with};
ghost use Rattle.device.specs.Device.{job_spelled};

use rules::answer::Fault;

// The refusal's number and place; how many events the job has, 0 beside a refusal.
#[repr(C)]
#[derive(Clone, Copy)]
pub struct DeviceJob {
    pub number: u8,
    pub place: usize,
    pub events: usize,
}

impl From<Result<usize, Fault>> for DeviceJob {
    ghost from_gives = { λ r d. d ≡ job_spelled (job_with r) };

    #[tactic(auto, unfolding(jobs::specs::Job::job_with, rules::specs::Numbers::Answer::verdict_number, rules::specs::Numbers::Answer::verdict_place))]
    fn from(job: Result<usize, Fault>) -> DeviceJob {
        match job {
            Ok(events) => DeviceJob {
                number: 0,
                place: 0,
                events,
            },
            Err(Fault { why, place }) => DeviceJob {
                number: u8::from(why),
                place,
                events: 0,
            },
        }
    }
}

// 25 and 26; where one refuses, no byte of the space changes. Else the events' records stand at its start, and the bytes after
// them stay.
#[unsafe(no_mangle)]
pub extern "C" fn recorder_read_job(text: &[u8], space: &mut [u8]) -> DeviceJob
    ensures value { result ≡ job_spelled (job_of text.now space.old).answer }
    ensures space_after { space.new ≡ (job_of text.now space.old).space }
{
    DeviceJob::from(jobs::read_job(text, space))
}
