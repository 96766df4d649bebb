ghost use Rattle.std.specs.Prelude.{◌≡◌};
ghost use Rattle.frames.specs.Frame.{low_byte};

// The low byte of the sum of bytes.
pub fn sum(s: &[u8]) -> u8
    ensures { result ≡ low_byte s.now }
{
    s.iter().fold(0, |total, b| total.wrapping_add(*b))
}
