// What the types of lent tables say of all their elements at once. Nothing is done.
ghost use Rattle.std.specs.Prelude.{ℕ, ◌<◌, ◌^◌};
ghost use Rattle.rules.specs.Numbers.Place.{at};

fn nothing() {}

pub fn all_bytes(xs: &[u8])
    ensures { (x : ℕ) → at xs.now x < 2 ^ 8 }
{
    nothing();
}

pub fn all_words(xs: &[u32])
    ensures { (x : ℕ) → at xs.now x < 2 ^ 32 }
{
    nothing();
}
