ghost use Rattle.std.specs.Prelude.{◌≡◌};
ghost use Rattle.points.specs.Point.{zero_point};

use crate::units::{Acceleration, Position, Speed};

// A point: its axis pattern, accelerations, speed, and the positions of eight axes.
#[derive(Clone, Copy, Debug, PartialEq, Eq)]
pub struct Point {
    pub pattern: u8,
    pub acceleration: Acceleration,
    pub deceleration: Acceleration,
    pub speed: Speed,
    pub positions: [Position; 8],
}

impl Point {
    // A slot's bytes, and where each field stands in it.
    pub const SLOT: usize = 40;

    pub const PATTERN: usize = 0;

    pub const ACCELERATION: usize = 2;

    pub const DECELERATION: usize = 4;

    pub const SPEED: usize = 6;

    pub const POSITIONS: usize = 8;

    pub const POSITION: usize = 4;

    // The point of a slot that is not effective.
    pub fn zero() -> Point
        ensures { result ≡ zero_point }
    {
        Point {
            pattern: 0,
            acceleration: Acceleration(0),
            deceleration: Acceleration(0),
            speed: Speed(0),
            positions: [Position(0); 8],
        }
    }
}
