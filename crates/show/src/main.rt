// RULES 19.7: the book on standard input, and its text on standard output.
#![tactic(auto)]

use office::show::show;
use office::space::text_room;

fn show_input(book: &[u8]) {
    let mut out = text_room();
    let size = show(book, &mut out);
    io::write_all(1, &out[..size]);
}

// The buffer is larger than the largest book.
fn main() {
    let mut book = io::large_buffer();
    let n = io::read_full(0, &mut book);
    show_input(&book[..n]);
}
