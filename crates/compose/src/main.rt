// RULES 19.5: the text on standard input, and its book on standard output; or the line that says why there is none, on standard
// error.
#![tactic(auto)]

use office::compose::compose;
use office::space::text_room;

// Room for every book.
const BOOK_SPACE: usize = 65536;

// Room for every line.
const LINE_SPACE: usize = 512;

// Writes the first n bytes. That n is no more than there are, `compose` says only through the definition of the book.
fn write_front(fd: i32, bytes: &[u8], n: usize) {
    if n <= bytes.len() {
        io::write_all(fd, &bytes[..n]);
    }
}

fn compose_input(text: &[u8]) {
    let mut out = [0u8; BOOK_SPACE];
    let mut said = [0u8; LINE_SPACE];
    let made = compose(text, &mut out, &mut said);
    write_front(1, &out, made.length);
    write_front(2, &said, made.said);
}

fn main() {
    let mut text = text_room();
    let n = io::read_full(0, &mut text);
    compose_input(&text[..n]);
}
