ghost use Rattle.std.specs.Prelude.{◌≡◌, true, ◌+◌, ◌*◌, ◌≤◌, ◌<◌, length};
ghost use Rattle.digits.specs.Digits.{all_digits, number_of};
ghost use Rattle.points.specs.Axes.{axes_of};
ghost use Rattle.points.specs.Point.{position_of, positions_of, point_of, length_of, fills_of};

use crate::patterns::{Axes, ones};
use crate::point::Point;
use crate::units::{Acceleration, Position, Speed};

// The number that two digits write. It stays beside `four_digits`: one generic function had to go by `try_from`, whose failure no digits reach.
fn two_digits(field: &[u8]) -> u8
    requires { (length field.now ≡ 2) × (all_digits field.now ≡ true) }
    ensures { result ≡ number_of field.now }
{
    digits::value(field) as u8
}

// The number that four digits write.
fn four_digits(field: &[u8]) -> u16
    requires { (length field.now ≡ 4) × (all_digits field.now ≡ true) }
    ensures { result ≡ number_of field.now }
{
    digits::value(field) as u16
}

// The position that eight digits write in two's complement.
fn read_position(field: &[u8]) -> Position
    requires { (length field.now ≡ 8) × (all_digits field.now ≡ true) }
    ensures { result ≡ position_of field.now }
{
    Position::of(digits::value(field) as u32)
}

// The positions of a pattern's axes, lowest first; those of absent axes are 0.
#[tactic(auto, using(crate::proofs::Ones::first_axis))]
fn read_positions(pattern: u8, digits: &[u8]) -> [Position; 8]
    requires { (8 * length (axes_of pattern) ≤ length digits.now) × (all_digits digits.now ≡ true) }
    ensures { result ≡ positions_of 8 pattern digits.now }
{
    let mut positions = Point::zero().positions;
    for (axis, field) in Axes::of(pattern).zip(digits.chunks_exact(8)) {
        positions[axis] = read_position(field);
    }
    positions
}

// How many digits the point at the front has, by its own pattern.
#[tactic(auto, using(crate::proofs::Ones::at_most))]
pub fn point_length(digits: &[u8]) -> usize
    requires { (2 ≤ length digits.now) × (all_digits digits.now ≡ true) }
    ensures { result ≡ length_of digits.now }
{
    14 + 8 * ones(two_digits(&digits[0..2]))
}

// The point at the front.
#[tactic(auto, using(crate::proofs::Measured::least))]
pub fn read_point(digits: &[u8]) -> Point
    requires { (length_of digits.now ≤ length digits.now) × (all_digits digits.now ≡ true) }
    ensures { result ≡ point_of digits.now }
{
    let pattern = two_digits(&digits[0..2]);
    let acceleration = Acceleration(four_digits(&digits[2..6]));
    let deceleration = Acceleration(four_digits(&digits[6..10]));
    let speed = Speed(four_digits(&digits[10..14]));
    let positions = read_positions(pattern, &digits[14..]);
    Point {
        pattern,
        acceleration,
        deceleration,
        speed,
        positions,
    }
}

// Whether digits are exactly so many points, each as long as its own pattern says. Nothing is stored.
pub fn fills(digits: &[u8], count: usize) -> bool
    requires { all_digits digits.now ≡ true }
    ensures { result ≡ fills_of count digits.now }
{
    let mut rest = digits;
    for _ in 0..count {
        if rest.len() < 14 {
            return false;
        }
        let Some((_, behind)) = rest.split_at_checked(point_length(rest)) else {
            return false;
        };
        rest = behind;
    }
    rest.is_empty()
}
