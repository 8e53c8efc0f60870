// A text put into lent bytes part by part, by a page that keeps its place: what does not fit is cut.
#![tactic(auto)]

ghost use Rattle.std.specs.Prelude.{◌≡◌, [], ◌∷◌, ◌%◌};
ghost use Rattle.page.specs.Page.{Laid, page, typed};
ghost use Rattle.rules.specs.Numbers.Place.{at};
ghost use Rattle.page.specs.Decimal.{digit, digits};
ghost use Rattle.page.specs.Says.{filled};

// What stands in a sentence for a number.
const MARK: u8 = b'@';

// Lent bytes, or numbers of another kind, and the place of the next one.
#[derive(Drop)]
pub struct Page<'a, T = u8> {
    out: &'a mut [T],
    place: usize,
}

impl<'a, T: Copy> Page<'a, T> {
    // A page on which nothing stands yet.
    pub fn new(out: &'a mut [T]) -> Page<'a, T>
        ensures { result ≡ page out.entry 0 }
    {
        Page::at(out, 0)
    }

    // A page on which something stands up to a place.
    pub fn at(out: &'a mut [T], place: usize) -> Page<'a, T>
        ensures { result ≡ page out.entry place }
    {
        Page { out, place }
    }

    // How many bytes stand on it.
    pub fn place(&self) -> usize
        ensures { result ≡ self.now.place }
    {
        self.place
    }

    // One byte, or number.
    pub fn put(&mut self, item: T)
        ensures { self.new ≡ typed self.old (item ∷ []) }
    {
        if self.place < self.out.len() {
            self.out[self.place] = item;
            self.place += 1;
        }
    }
}

impl Page<'_> {
    // The bytes of a text.
    pub fn put_text(&mut self, text: &[u8])
        ensures { self.new ≡ typed self.old text.now }
    {
        self.place = lay_text(&mut *self.out, self.place, text);
    }

    // A number in decimal.
    pub fn put_number(&mut self, n: u64)
        ensures { self.new ≡ typed self.old (digits n) }
    {
        self.place = lay_number(&mut *self.out, self.place, n);
    }

    // A number with a space before it.
    #[tactic(auto, using(crate::proofs::Typed::typing))]
    pub fn put_field(&mut self, n: u64)
        ensures { self.new ≡ typed self.old (32 ∷ digits n) }
    {
        self.put(b' ');
        self.put_number(n);
    }

    // A sentence with numbers: each `@` of it becomes the next of them, and 0 where there are no more.
    pub fn put_says(&mut self, text: &[u8], numbers: &[u64])
        ensures { self.new ≡ typed self.old (filled text.now numbers.now) }
    {
        self.place = lay_says(&mut *self.out, self.place, text, numbers);
    }
}

// The last digit of a number.
fn last_digit(n: u64) -> u8
    ensures { result ≡ digit (n % 10) }
{
    b'0' + (n % 10) as u8
}

// The same over lent bytes, with the place at hand: through a lent page both would be read and written anew for each byte. Each
// answers the place after its part.

fn lay(out: &mut [u8], place: usize, byte: u8) -> usize
    ensures { Laid out.old place (byte ∷ []) out.new result }
{
    if place < out.len() {
        out[place] = byte;
        place + 1
    } else {
        place
    }
}

fn lay_text(out: &mut [u8], from: usize, text: &[u8]) -> usize
    ensures { Laid out.old from text.now out.new result }
{
    let mut place = from;
    for &byte in text {
        place = lay(out, place, byte);
    }
    place
}

// A number's last digit stands after those of a tenth of it.
fn lay_number(out: &mut [u8], from: usize, n: u64) -> usize
    ensures { Laid out.old from (digits n) out.new result }
{
    let last = last_digit(n);
    if n < 10 {
        return lay(out, from, last);
    }
    let place = lay_number(out, from, n / 10);
    lay(out, place, last)
}

// Number j of some, and 0 past their end.
fn number_at(numbers: &[u64], j: usize) -> u64
    ensures { result ≡ at numbers.now j }
{
    numbers.get(j).copied().unwrap_or(0)
}

fn lay_says(out: &mut [u8], from: usize, text: &[u8], numbers: &[u64]) -> usize
    ensures { Laid out.old from (filled text.now numbers.now) out.new result }
{
    let mut place = from;
    let mut next = 0;
    for &byte in text {
        if byte == MARK {
            place = lay_number(out, place, number_at(numbers, next));
            next += 1;
        } else {
            place = lay(out, place, byte);
        }
    }
    place
}
