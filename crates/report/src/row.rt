// The four bytes of a row, each 0 past the end of the rows.
ghost use Rattle.std.specs.Prelude.{◌≡◌, ◌+◌, ◌*◌, ◌<◌};
ghost use Rattle.rules.specs.Numbers.Place.{at};

// Byte j of the row k, and 0 past the end.
fn byte_at(rows: &[u8], k: usize, j: usize) -> u64
    requires { j < 4 }
    ensures { result ≡ at rows.now (k * 4 + j) }
{
    if k > rows.len() / 4 {
        return 0;
    }
    rows.get(k * 4 + j).copied().unwrap_or(0) as u64
}

// The task that runs after event k, its user word, the second word, and 1 for a call. They are four
// functions, since other crates call them by these names and contracts.
pub fn running(rows: &[u8], k: usize) -> u64
    ensures { result ≡ at rows.now (k * 4) }
{
    byte_at(rows, k, 0)
}

pub fn user(rows: &[u8], k: usize) -> u64
    ensures { result ≡ at rows.now (k * 4 + 1) }
{
    byte_at(rows, k, 1)
}

pub fn next(rows: &[u8], k: usize) -> u64
    ensures { result ≡ at rows.now (k * 4 + 2) }
{
    byte_at(rows, k, 2)
}

pub fn call(rows: &[u8], k: usize) -> u64
    ensures { result ≡ at rows.now (k * 4 + 3) }
{
    byte_at(rows, k, 3)
}
