// Numbers by their bytes, the lowest first. What lies past the end of the input reads as 0, and what comes past the room of a
// reply is not sent.
ghost use Rattle.std.specs.Prelude.{◌≤◌};

use rules::answer::Fault;

// The bytes of a command that are still to be read.
#[derive(Clone, Copy)]
pub struct Input<'a> {
    rest: &'a [u8],
}

impl<'a> Input<'a> {
    pub fn new(bytes: &'a [u8]) -> Input<'a> {
        Input { rest: bytes }
    }

    fn byte(&mut self) -> u8 {
        match self.rest.split_first() {
            Some((&first, rest)) => {
                self.rest = rest;
                first
            }
            None => 0,
        }
    }

    // The next N bytes, at once where they are all there.
    pub fn take<const N: usize>(&mut self) -> [u8; N] {
        if let Some((&bytes, rest)) = self.rest.split_first_chunk::<N>() {
            self.rest = rest;
            return bytes;
        }
        let mut bytes = [0u8; N];
        for byte in bytes.iter_mut() {
            *byte = self.byte();
        }
        bytes
    }
}

// A reply as far as it is made.
#[derive(Drop)]
pub struct Reply<const N: usize> {
    bytes: [u8; N],
    length: usize,
    ghost within: { length ≤ N },
}

impl<const N: usize> Reply<N> {
    pub fn new() -> Reply<N> {
        Reply {
            bytes: [0; N],
            length: 0,
        }
    }

    pub fn put(&mut self, bytes: &[u8]) {
        let all = &mut self.bytes[..];
        let room = &mut all[self.length..];
        let n = bytes.len().min(room.len());
        room[..n].copy_from_slice(&bytes[..n]);
        self.length += n;
    }

    // The bytes of a number, stored at once: so few that to copy them by their number would cost more.
    pub fn put_few<const M: usize>(&mut self, bytes: [u8; M]) {
        let all = &mut self.bytes[..];
        let room = &mut all[self.length..];
        if M <= room.len() {
            room[..M].copy_from_slice(&bytes);
            self.length += M;
        } else {
            self.put(&bytes);
        }
    }

    // A place of a book, which four bytes hold.
    pub fn put_place(&mut self, place: usize) {
        self.put(&place.to_le_bytes()[..4]);
    }

    // A refusal's number and its place, both 0 where there is none.
    pub fn put_fault(&mut self, fault: Option<Fault>) {
        let (number, place) = match fault {
            Some(Fault { why, place }) => (u8::from(why), place),
            None => (0, 0),
        };
        self.put(&[number]);
        self.put_place(place);
    }

    // To standard output.
    pub fn send(&self) {
        write_front(&self.bytes, self.length);
    }
}

// Writes the first n bytes to standard output.
pub fn write_front(bytes: &[u8], n: usize) {
    if let Some(front) = bytes.get(..n) {
        io::write_all(1, front);
    }
}
