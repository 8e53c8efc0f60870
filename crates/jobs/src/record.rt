// Event records in lent space, read as numbers.
ghost use Rattle.std.specs.Prelude.{◌≡◌};
ghost use Rattle.jobs.specs.Sheet.{record_in};

// The number of record n, and 0 where there is none, as `record_in` says.
pub fn record_at(space: &[u8], n: usize) -> u32
    ensures { result ≡ record_in space.now n }
{
    if n < space.len() / 4 {
        let i = n * 4;
        u32::from_le_bytes([space[i], space[i + 1], space[i + 2], space[i + 3]])
    } else {
        0
    }
}
