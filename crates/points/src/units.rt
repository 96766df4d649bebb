ghost use Rattle.std.specs.Prelude.{◌≡◌};
ghost use Rattle.std.specs.Int.{w32};
ghost use Rattle.std.proofs.Common.{to_z, of_z};
ghost use Rattle.points.specs.Units.{position};

// A position in 0.001 mm.
#[derive(Clone, Copy, Debug, PartialEq, Eq)]
pub struct Position(pub i32);

// An acceleration or deceleration in 0.01 G.
#[derive(Clone, Copy, Debug, PartialEq, Eq)]
pub struct Acceleration(pub u16);

// A speed in mm/sec.
#[derive(Clone, Copy, Debug, PartialEq, Eq)]
pub struct Speed(pub u16);

impl Position {
    // The position that 32 bits write in two's complement.
    pub fn of(bits: u32) -> Position
        ensures { result ≡ position (to_z w32 bits) }
    {
        Position(bits.cast_signed())
    }

    // Its 32 bits.
    pub fn bits(self) -> u32
        ensures { result ≡ of_z w32 self.0 }
    {
        self.0.cast_unsigned()
    }
}
