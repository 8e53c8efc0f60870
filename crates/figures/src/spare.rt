// Whether all places of a table from n on hold 0, for each width of number.
ghost use Rattle.std.specs.Prelude.{◌≡◌, Bool, List, drop};
ghost use Rattle.rules.specs.Numbers.Place.{zeros};
ghost use Rattle.figures.specs.Figure.{FigureLaws, number_laws};

use std::ops::BitOr;

// A number that stands in a table.
pub trait Figure: Copy + Default + PartialEq + BitOr<Output = Self> {
    // Whether each number of a list is 0.
    ghost zeros: { List Self → Bool };

    ghost laws: { FigureLaws Self.is_default Self.can_bitor Self.bitor_gives Self.eq zeros };
}

impl Figure for u8 {
    ghost zeros = { zeros };

    ghost laws = { number_laws };
}

impl Figure for u16 {
    ghost zeros = { zeros };

    ghost laws = { number_laws };
}

impl Figure for u32 {
    ghost zeros = { zeros };

    ghost laws = { number_laws };
}

impl Figure for u64 {
    ghost zeros = { zeros };

    ghost laws = { number_laws };
}

// The bits of all places are joined, and asked once: without a way out of the loop several places are joined at a time.
pub fn spare<T: Figure>(xs: &[T], n: usize) -> bool
    ensures { result ≡ T.zeros (drop n xs.now) }
{
    let zero = T::default();
    let rest = &xs[n.min(xs.len())..];
    rest.iter().fold(zero, |joined, &x| joined | x) == zero
}
