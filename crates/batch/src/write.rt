// The writing of a book. It is handed four counts, of tasks, locks, uses and events, four bytes each,
// and then so many records of each kind, as numbers. The reply: the refusal's number or 0, its place,
// the book's length, and the whole buffer, which held 0xEE before.
ghost use Rattle.std.specs.Prelude.{◌+◌, ◌<◌, ◌≤◌, ◌^◌, length};

use crate::wire::{Input, Reply};
use rules::answer::Fault;

// Places for tasks and uses, and for locks and events: of each kind more than two bytes can count.
const MOST: usize = 131200;

// Where the records start.
const RECORDS: usize = 16;

const REPLY: usize = 9;

// How many records there are of each kind.
#[derive(Clone, Copy)]
struct Counts {
    tasks: usize,
    locks: usize,
    uses: usize,
    events: usize,
}

// Says whether it was a command: the counts are those of the records, and not too great.
pub fn reply(input: &[u8], buffer: &mut [u8]) -> bool {
    let mut numbers = Input::new(input);
    let counts = Counts {
        tasks: read_count(&mut numbers),
        locks: read_count(&mut numbers),
        uses: read_count(&mut numbers),
        events: read_count(&mut numbers),
    };
    let words = counts.tasks + counts.uses;
    let longs = counts.locks + counts.events;
    if words > MOST || longs > MOST || input.len() != RECORDS + words * 2 + longs * 4 {
        return false;
    }
    buffer.fill(0xEE);
    let written = write(&mut numbers, counts, &mut [0; MOST], &mut [0; MOST], buffer);
    let mut out = Reply::<REPLY>::new();
    out.put_fault(written.err());
    out.put_place(written.unwrap_or(0));
    out.send();
    io::write_all(1, buffer);
    true
}

fn read_count(input: &mut Input) -> usize
    ensures { result < 2 ^ 32 }
{
    u32::from_le_bytes(input.take()) as usize
}

// Reads the records, and writes the book of them. Tasks and uses are words, locks and events are longer.
fn write(
    input: &mut Input,
    counts: Counts,
    words: &mut [u16],
    longs: &mut [u32],
    buffer: &mut [u8],
) -> Result<usize, Fault>
    requires words { counts.tasks + counts.uses ≤ length words.old }
    requires longs { counts.locks + counts.events ≤ length longs.old }
{
    let (tasks, words) = words.split_at_mut(counts.tasks);
    let (locks, longs) = longs.split_at_mut(counts.locks);
    let uses = &mut words[..counts.uses];
    let events = &mut longs[..counts.events];
    read_words(input, tasks);
    read_longs(input, locks);
    read_words(input, uses);
    read_longs(input, events);
    book::writer::write(tasks, locks, uses, events, buffer)
}

fn read_words(input: &mut Input, words: &mut [u16]) {
    for word in words.iter_mut() {
        *word = u16::from_le_bytes(input.take());
    }
}

fn read_longs(input: &mut Input, longs: &mut [u32]) {
    for long in longs.iter_mut() {
        *long = u32::from_le_bytes(input.take());
    }
}
