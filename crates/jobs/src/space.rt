// Event records laid into lent space, each a number of four bytes, low byte first.
ghost use Rattle.std.specs.Prelude.{◌≡◌};
ghost use Rattle.jobs.specs.Sheet.{with_record};

// The number w as record n, where it fits.
pub fn store(space: &mut [u8], n: usize, w: u32)
    ensures { space.new ≡ with_record space.old n w }
{
    if n < space.len() / 4 {
        let i = n * 4;
        [space[i], space[i + 1], space[i + 2], space[i + 3]] = w.to_le_bytes();
    }
}
