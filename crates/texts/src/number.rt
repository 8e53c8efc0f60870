// RULES 19.2: a number in decimal digits.
ghost use Rattle.std.specs.Prelude.{◌≡◌};
ghost use Rattle.texts.specs.Number.{digital, grown, value_of, number_of};

// What is wrong with the word where a number stands, or after the last one.
#[derive(Clone, Copy)]
pub enum Mistake {
    Missing,
    NoNumber,
    TooLarge,
    TooMany,
}

// More than any number of a record; all numbers from it on are alike.
const TOO_LARGE: u32 = 65536;

// A number with one digit more.
fn with_digit(v: u32, c: u8) -> u32
    ensures { result ≡ grown v c }
{
    if c < b'0' {
        return v;
    }
    v.saturating_mul(10)
        .saturating_add(u32::from(c - b'0'))
        .min(TOO_LARGE)
}

// Whether all bytes are digits.
fn all_digits(word: &[u8]) -> bool
    ensures { result ≡ digital word.now }
{
    word.iter().all(|c| c.is_ascii_digit())
}

// The number that the digits of a word make.
fn value(word: &[u8]) -> u32
    ensures { result ≡ value_of 0 word.now }
{
    word.iter().fold(0, |v, &c| with_digit(v, c))
}

// The number that a word is, where it may be at most this.
pub fn read_number(word: &[u8], most: u32) -> Result<u32, Mistake>
    ensures { result ≡ number_of most word.now }
{
    if word.is_empty() {
        return Err(Mistake::Missing);
    }
    if !all_digits(word) {
        return Err(Mistake::NoNumber);
    }
    let v = value(word);
    if v > most {
        return Err(Mistake::TooLarge);
    }
    Ok(v)
}
