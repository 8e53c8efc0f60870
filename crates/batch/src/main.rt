// Commands for the judge, one after the other on standard input, each with its reply on standard
// output. All numbers are little-endian. A command has a head of 16 bytes, four numbers of four: its own,
// the protocol's (2 the second, 1 the first), the size of what follows and a room; and then so many bytes:
//   1  replay a book with so much row space (replay.rt)
//   2  check a book for so much row space (check.rt)
//   3  a single step: a plan, a state and an event (step.rt)
//   4  write a book from its records, to a buffer of so many bytes (write.rt)
//   5  compose a book from a text, 6 show a book, 7 explain its replay (office_replies.rt)
//   8  read the text of a job, into event space of so many bytes (job.rt)
// The input's end, or a command that is none of these, too long or with counts that do not fit it, ends
// the program.
#![tactic(auto)]

mod check;
mod each_figure;
mod job;
mod office_replies;
mod replay;
mod step;
mod wire;
mod write;

use office::space::text_room;
use rules::protocol::Protocol;
use wire::Input;

// More bytes than the largest book and its rows have.
const ROOM: usize = 65536;

// More commands than one run is given.
const MOST: usize = 4000000000;

#[derive(Clone, Copy)]
enum Command {
    Replay,
    Check,
    Step,
    Write,
    Compose,
    Show,
    Explain,
    Job,
}

// By its number.
impl TryFrom<u32> for Command {
    type Error = ();

    fn try_from(number: u32) -> Result<Command, ()> {
        Ok(match number {
            1 => Command::Replay,
            2 => Command::Check,
            3 => Command::Step,
            4 => Command::Write,
            5 => Command::Compose,
            6 => Command::Show,
            7 => Command::Explain,
            8 => Command::Job,
            _ => return Err(()),
        })
    }
}

// Reads what follows a command, and replies. Says whether it was one: what follows is read first.
fn answer(number: u32, protocol: Protocol, input: &mut [u8], rows: &mut [u8]) -> bool {
    io::read_full(0, input);
    let Ok(command) = Command::try_from(number) else {
        return false;
    };
    match command {
        Command::Replay => replay::reply(protocol, input, rows),
        Command::Check => check::reply(input, rows.len()),
        Command::Step => step::reply(protocol, input),
        Command::Write => return write::reply(input, rows),
        Command::Compose => office_replies::compose_reply(input),
        Command::Show => office_replies::show_reply(input),
        Command::Explain => office_replies::explain_reply(protocol, input),
        Command::Job => job::reply(input, rows),
    }
    true
}

// Answers one command, and says whether there was one.
fn one(input: &mut [u8], rows: &mut [u8]) -> bool {
    let mut head = [0u8; 16];
    if io::read_full(0, &mut head) < head.len() {
        return false;
    }
    let mut head = Input::new(&head);
    let number = u32::from_le_bytes(head.take());
    let [protocol, _, _, _]: [u8; 4] = head.take();
    let size = u32::from_le_bytes(head.take()) as usize;
    let room = u32::from_le_bytes(head.take()) as usize;
    if input.len() < size || rows.len() < room {
        return false;
    }
    answer(
        number,
        Protocol::from(protocol),
        &mut input[..size],
        &mut rows[..room],
    )
}

// The input has room for one byte more than a text may have; a plan and a state have fewer, and so have the records of a writing.
fn main() {
    let mut input = text_room();
    let mut rows = [0u8; ROOM];
    for _ in 0..MOST {
        if !one(&mut input, &mut rows) {
            return;
        }
    }
}
