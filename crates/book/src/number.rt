// Numbers as a book holds them, low byte first: a u16 in two bytes, a u32 in four.
ghost use Rattle.std.specs.Prelude.{◌≡◌, ◌+◌, ◌≤◌, ℕ, List, [], ◌∷◌, ◌++◌, length};
ghost use Rattle.std.proofs.Common.{rules};
ghost use Rattle.rules.specs.Numbers.Place.{stored};
ghost use Rattle.rules.specs.Books.Book.{word, long};
ghost use Rattle.rules.specs.Books.Bytes.{two, four, word_bytes, long_bytes};
ghost use Rattle.book.specs.Field.{size_of_two, size_of_four, word_bytes_none, word_bytes_more, long_bytes_none, long_bytes_more};

pub trait Field: Copy {
    ghost SIZE: { ℕ };

    // The number at a place, the bytes of one, and those of a body of them.
    ghost number_at: { List ℕ → ℕ → Self };

    ghost bytes_of: { Self → List ℕ };

    ghost body_of: { List Self → List ℕ };

    const SIZE: usize;

    fn read(b: &[u8], i: usize) -> Self
        requires { i + SIZE ≤ length b.now }
        ensures { result ≡ number_at b.now i };

    fn write(self, out: &mut [u8], i: usize)
        requires { i + SIZE ≤ length out.old }
        ensures { out.new ≡ stored out.old i (bytes_of self) };

    ghost some: { 1 ≤ SIZE };

    ghost size: { (x : Self) → length (bytes_of x) ≡ SIZE };

    ghost none: { body_of [] ≡ [] };

    ghost more: { (x : Self) (xs : List Self) → body_of (x ∷ xs) ≡ bytes_of x ++ body_of xs };
}

impl Field for u16 {
    ghost SIZE = { 2 };

    ghost number_at = { word };

    ghost bytes_of = { two };

    ghost body_of = { word_bytes };

    const SIZE: usize = 2;

    fn read(b: &[u8], i: usize) -> u16 {
        u16::from_le_bytes([b[i], b[i + 1]])
    }

    fn write(self, out: &mut [u8], i: usize) {
        [out[i], out[i + 1]] = self.to_le_bytes();
    }

    ghost some = { Prim.search rules };

    ghost size = { size_of_two };

    ghost none = { word_bytes_none };

    ghost more = { word_bytes_more };
}

impl Field for u32 {
    ghost SIZE = { 4 };

    ghost number_at = { long };

    ghost bytes_of = { four };

    ghost body_of = { long_bytes };

    const SIZE: usize = 4;

    fn read(b: &[u8], i: usize) -> u32 {
        u32::from_le_bytes([b[i], b[i + 1], b[i + 2], b[i + 3]])
    }

    fn write(self, out: &mut [u8], i: usize) {
        [out[i], out[i + 1], out[i + 2], out[i + 3]] = self.to_le_bytes();
    }

    ghost some = { Prim.search rules };

    ghost size = { size_of_four };

    ghost none = { long_bytes_none };

    ghost more = { long_bytes_more };
}
