ghost use Rattle.std.specs.Prelude.{◌≡◌, length};
ghost use Rattle.std.specs.Iterator.{YieldsFirst, item_count};
ghost use Rattle.points.specs.Axes.{axes_of};

// How many axes a pattern has: the count of its ones.
pub fn ones(pattern: u8) -> usize
    ensures { result ≡ length (axes_of pattern) }
{
    pattern.count_ones() as usize
}

// The axes of a pattern, lowest first: those that are left to walk to.
#[derive(Clone, Debug, Drop)]
pub struct Axes {
    rest: u8,
}

impl Axes {
    // All axes of a pattern.
    pub fn of(pattern: u8) -> Axes
        ensures { result.rest ≡ pattern }
    {
        Axes { rest: pattern }
    }
}

impl Iterator for Axes {
    type Item = usize;

    ghost next_gives = { YieldsFirst (λ axes. axes_of axes.rest) };

    ghost remaining = { item_count (λ axes. axes_of axes.rest) };

    // The trailing zeros tell the lowest axis, which is then taken out.
    fn next(&mut self) -> Option<usize> {
        if self.rest == 0 {
            return None;
        }
        let axis = self.rest.trailing_zeros() as usize;
        self.rest &= self.rest - 1;
        Some(axis)
    }
}
