// Points as digits, and the effective ones listed (document 01, "Each message", 209H; source document 000, section 4-3-5).
#![tactic(auto)]

ghost use Rattle.std.specs.Prelude.{◌≡◌, ◌++◌, ◌+◌, ◌*◌, ◌≤◌, length};
ghost use Rattle.digits.specs.Digits.{digits_of};
ghost use Rattle.digits.specs.Laid.{laid};
ghost use Rattle.points.specs.Axes.{axes_of};
ghost use Rattle.points.specs.Point.{position_digits, point_digits};
ghost use Rattle.listing.specs.Listing.{listed, joined};

use digits::put_number;
use points::patterns::{Axes, ones};
use points::point::Point;
use points::units::Position;
use slots::point_at;

// Eight digits for each axis of a pattern, lowest first.
#[tactic(auto, using(points::proofs::Ones::first_axis))]
fn put_positions(reply: &mut [u8], at: usize, pattern: u8, positions: [Position; 8])
    requires { at + 8 * length (axes_of pattern) ≤ length reply.old }
    ensures { reply.new ≡ laid reply.old at (position_digits (axes_of pattern) positions) }
{
    let mut to = at;
    for axis in Axes::of(pattern) {
        put_number(reply, to, 8, u64::from(positions[axis].bits()));
        to += 8;
    }
}

// A point's digits, as 244H writes them.
fn put_point_digits(reply: &mut [u8], at: usize, p: Point)
    requires { at + (14 + 8 * length (axes_of p.pattern)) ≤ length reply.old }
    ensures { reply.new ≡ laid reply.old at (point_digits p) }
{
    put_number(reply, at, 2, u64::from(p.pattern));
    put_number(reply, at + 2, 4, u64::from(p.acceleration.0));
    put_number(reply, at + 6, 4, u64::from(p.deceleration.0));
    put_number(reply, at + 10, 4, u64::from(p.speed.0));
    put_positions(reply, at + 14, p.pattern, p.positions);
}

// A listed point: its number in three digits, then its own.
fn put_listing(reply: &mut [u8], at: usize, number: usize, p: Point)
    requires { at + (17 + 8 * length (axes_of p.pattern)) ≤ length reply.old }
    ensures { reply.new ≡ laid reply.old at (digits_of 3 number ++ point_digits p) }
{
    put_number(reply, at, 3, number as u64);
    put_point_digits(reply, at + 3, p);
}

// The digits that a list has room for: 1,024 bytes without header, station, ID, count, SC, CR and LF.
const ROOM: usize = 1011;

// So many points listed, in so many digits.
#[derive(Clone, Copy)]
pub struct Listed {
    pub many: usize,
    pub digits: usize,
}

// The effective points among so many slots, the first one's number being start, up to the first that has no room.
#[tactic(auto, using(points::proofs::Ones::at_most))]
pub fn put_listings(reply: &mut [u8], slots: &[u8], start: usize, count: usize) -> Listed
    requires { (1024 ≤ length reply.old) × (start + count ≤ 1501) × (40 * count ≤ length slots.now) }
    ensures many_value { (result.many ≡ length (listed 1011 count start slots.now))
        × (result.digits ≡ length (joined (listed 1011 count start slots.now)))
        × (result.digits ≤ 1011) }
    ensures reply_after { reply.new ≡ laid reply.old 9 (joined (listed 1011 count start slots.now)) }
{
    let mut many = 0;
    let mut digits = 0;
    for i in 0..count {
        let at = i * Point::SLOT;
        let pattern = slots[at];
        if pattern == 0 {
            continue;
        }
        let size = 17 + 8 * ones(pattern);
        if size > ROOM - digits {
            break;
        }
        put_listing(reply, 9 + digits, start + i, point_at(slots, at));
        many += 1;
        digits += size;
    }
    Listed { many, digits }
}
