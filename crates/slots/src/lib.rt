// Points in their area, a slot of 40 bytes each (document 01, "The areas" and "Each message", 244H; document 02, b: the effective ones counted).
#![tactic(auto)]

ghost use Rattle.std.specs.Prelude.{◌≡◌, true, [], ◌∷◌, ◌+◌, ◌*◌, ◌≤◌, length, drop};
ghost use Rattle.digits.specs.Digits.{all_digits};
ghost use Rattle.digits.specs.Laid.{laid};
ghost use Rattle.kinds.specs.Kinds.{points_tag, place_of};
ghost use Rattle.points.specs.Point.{fills_of, position_bytes, slot_of, slots_of, positions_in, point_in, effective_in};
ghost use Rattle.slots.specs.Counted.{effective_among};

use areas::bytes::{four_at, put_four, put_two, two_at};
use kinds::{Kind, Run};
use points::point::Point;
use points::reading::{point_length, read_point};
use points::units::{Acceleration, Position, Speed};

// The pattern and a zero byte.
fn put_pattern(area: &mut [u8], at: usize, pattern: u8)
    requires { at + 2 ≤ length area.old }
    ensures { area.new ≡ laid area.old at (pattern ∷ 0 ∷ []) }
{
    area[at] = pattern;
    area[at + 1] = 0;
}

// Eight positions, four bytes each.
fn put_positions(area: &mut [u8], at: usize, positions: [Position; 8])
    requires { at + 32 ≤ length area.old }
    ensures { area.new ≡ laid area.old at (position_bytes positions) }
{
    for (axis, position) in positions.iter().enumerate() {
        put_four(area, at + axis * Point::POSITION, position.bits());
    }
}

// A point's slot, rewritten whole.
pub fn put_point(area: &mut [u8], at: usize, p: Point)
    requires { at + 40 ≤ length area.old }
    ensures { area.new ≡ laid area.old at (slot_of p) }
{
    put_pattern(area, at + Point::PATTERN, p.pattern);
    put_two(area, at + Point::ACCELERATION, p.acceleration.0);
    put_two(area, at + Point::DECELERATION, p.deceleration.0);
    put_two(area, at + Point::SPEED, p.speed.0);
    put_positions(area, at + Point::POSITIONS, p.positions);
}

// So many points that digits write, laid into their slots; all of them were read before (`fills`).
pub fn lay_points(area: &mut [u8], at: usize, digits: &[u8], count: usize)
    requires { (at + 40 * count ≤ length area.old) × (all_digits digits.now ≡ true) × (fills_of count digits.now ≡ true) }
    ensures { area.new ≡ laid area.old at (slots_of count digits.now) }
{
    let mut rest = digits;
    for i in 0..count {
        put_point(area, at + i * Point::SLOT, read_point(rest));
        rest = &rest[point_length(rest)..];
    }
}

// The eight positions that stand at a place.
fn positions_at(area: &[u8], at: usize) -> [Position; 8]
    requires { at + 32 ≤ length area.now }
    ensures { result ≡ positions_in 8 (drop at area.now) }
{
    let mut positions = Point::zero().positions;
    for (axis, position) in positions.iter_mut().enumerate() {
        *position = Position::of(four_at(area, at + axis * Point::POSITION));
    }
    positions
}

// The point whose slot stands at a place.
pub fn point_at(area: &[u8], at: usize) -> Point
    requires { at + 40 ≤ length area.now }
    ensures { result ≡ point_in (drop at area.now) }
{
    Point {
        pattern: area[at + Point::PATTERN],
        acceleration: Acceleration(two_at(area, at + Point::ACCELERATION)),
        deceleration: Acceleration(two_at(area, at + Point::DECELERATION)),
        speed: Speed(two_at(area, at + Point::SPEED)),
        positions: positions_at(area, at + Point::POSITIONS),
    }
}

// How many of so many slots have a pattern that is not 00.
pub fn count_effective(area: &[u8], n: usize) -> usize
    requires { (length area.now ≡ 40 * n) × (n ≤ 1500) }
    ensures { result ≡ effective_in n area.now }
{
    let mut count = 0;
    for i in 0..n {
        if area[i * Point::SLOT] != 0 {
            count += 1;
        }
    }
    count
}

// How many effective slots a run has that lies in its area; a run of another kind than points has none.
pub fn count_run(area: &[u8], run: Run) -> usize
    requires { run.kind.tag ≡ points_tag → (run.kind.unit ≡ 40) × (run.kind.first ≤ run.start) × (run.count ≤ 1500)
        × (place_of run.kind run.start + run.count * 40 ≤ length area.now) }
    ensures { result ≡ effective_among run.kind run.start run.count area.now }
{
    if run.kind.tag != Kind::POINTS {
        return 0;
    }
    count_effective(run.part(area), run.count)
}
