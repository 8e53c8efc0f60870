// The book of a text, the text of a book, and what its replay was about. The replies:
//   compose  the length of the book and that of the line that says why there is none, then both
//   show     the text's length, then the text
//   explain  the words' length, then the words
use crate::wire::{Reply, write_front};
use office::compose::compose;
use office::explain::explain;
use office::show::show;
use office::space::text_room;
use page::Page;
use rules::protocol::Protocol;

// Room for every book, and for every line.
const BOOK_SPACE: usize = 65536;

const LINE_SPACE: usize = 512;

fn write_sizes(a: usize, b: usize) {
    let mut out = Reply::<8>::new();
    out.put_place(a);
    out.put_place(b);
    out.send();
}

fn write_sized(text: &[u8], n: usize) {
    let mut out = Reply::<4>::new();
    out.put_place(n);
    out.send();
    write_front(text, n);
}

pub fn compose_reply(text: &[u8]) {
    let mut out = [0u8; BOOK_SPACE];
    let mut said = [0u8; LINE_SPACE];
    let made = compose(text, &mut out, &mut said);
    write_sizes(made.length, made.said);
    write_front(&out, made.length);
    write_front(&said, made.said);
}

pub fn show_reply(book: &[u8]) {
    let mut out = text_room();
    let n = show(book, &mut out);
    write_sized(&out, n);
}

pub fn explain_reply(protocol: Protocol, book: &[u8]) {
    let mut out = text_room();
    let mut page = Page::new(&mut out);
    explain(protocol, book, &mut page);
    let n = page.place();
    write_sized(&out, n);
}
