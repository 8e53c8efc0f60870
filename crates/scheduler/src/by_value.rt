// The step of a sound state by value: a run of one event.
ghost use Rattle.std.specs.Prelude.{◌≡◌, true};
ghost use Rattle.rules.specs.Soundness.Sound.{SoundAndSized};
ghost use Rattle.rules.specs.Soundness.SoundTest.{sound_test};
ghost use Rattle.rules.specs.Replays.Step.{act_of, refused_with};
ghost use Rattle.scheduler.specs.Going.{answer_from};

use crate::run::run_from;
use rules::answer::{Fault, Stepped};
use rules::event::Event;
use rules::plan::Plan;
use rules::protocol::Protocol;
use rules::refusal::Refusal;
use rules::state::State;

// The given state beside a refusal.
pub fn refused_with(s: State, why: Refusal) -> Stepped
    ensures { result ≡ refused_with s why }
{
    Stepped {
        answer: Err(why),
        state: s,
    }
}

// The answer to the one event of a run: what was refused, or whether its row has a call.
fn answer_from(verdict: Result<(), Fault>, call: u8) -> Result<bool, Refusal>
    ensures { result ≡ answer_from verdict call }
{
    match verdict {
        Ok(()) => Ok(call == 1),
        Err(Fault { why, .. }) => Err(why),
    }
}

// One event is run; of its row only the call is asked. The act has one caller so, and is compiled into the
// loop of a replay.
fn run_one(protocol: Protocol, p: Plan, s: State, e: Event) -> Stepped
    requires { SoundAndSized protocol p s }
    ensures { result ≡ act_of protocol p s e }
{
    let mut state = s;
    let mut row = [0u8; 4];
    let verdict = run_from(protocol, &p, &mut state, e, &[0u8; 4], 1, &mut row);
    Stepped {
        answer: answer_from(verdict, row[3]),
        state,
    }
}

// The step without the test of soundness.
pub fn step_sound(protocol: Protocol, p: Plan, s: State, e: Event) -> Stepped
    requires { sound_test protocol p s ≡ true }
    ensures { result ≡ act_of protocol p s e }
{
    run_one(protocol, p, s, e)
}
