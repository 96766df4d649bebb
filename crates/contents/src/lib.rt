// A frame's content: its numbers, and the tests of what follows them, 103, 107 and 108 (document 01, "Each message" and "Refusal numbers"; document 02, a).
#![tactic(auto)]

ghost use Rattle.std.specs.Prelude.{◌≡◌, true, cond, not, ◌&&◌, ◌+◌, ◌*◌, ◌≤◌, ◌<◌, leb, eqb, length};
ghost use Rattle.digits.specs.Digits.{all_digits, number_of};
ghost use Rattle.frames.specs.Frame.{content_in};
ghost use Rattle.points.specs.Point.{fills_of};
ghost use Rattle.table.specs.Table.{fields_of, program_in, start_in, count_in, follows_right, Narrow};
ghost use Rattle.table.specs.Table.{have_points, have_type, pattern_fits, patterns_fit};

use points::reading::{fills, point_length};
use table::{Follows, Message};

// The content of a frame.
pub fn content(frame: &[u8]) -> &[u8]
    requires { 10 ≤ length frame.now }
    ensures { result.now ≡ content_in frame.now }
{
    &frame[6..frame.len() - 4]
}

// The number of a field of up to four digits. Std has no `From<u64>` for a usize, and no four digits fail `try_from`.
fn small(field: &[u8]) -> usize
    requires { length field.now ≤ 4 }
    ensures { (result ≡ number_of field.now) × (result < 65536) }
{
    digits::number(field) as usize
}

// The number of a count; without one, one thing is named.
fn count_of(field: &[u8]) -> usize
    requires { length field.now ≤ 4 }
    ensures { (result ≡ cond (eqb (length field.now) 0) 1 (number_of field.now)) × (result < 65536) }
{
    if field.is_empty() {
        return 1;
    }
    small(field)
}

// Program number, start number and count of a content.
#[derive(Clone, Copy)]
pub struct Numbers {
    pub program: usize,
    pub start: usize,
    pub count: usize,
}

pub fn read_numbers(m: Message, content: &[u8]) -> Numbers
    requires { Narrow m × (fields_of m ≤ length content.now) }
    ensures program_value { (result.program ≡ program_in m content.now)
        × (result.start ≡ start_in m content.now) × (result.count ≡ count_in m content.now) }
    ensures start_bound { (result.start < 65536) × (result.count < 65536) }
{
    let (program, rest) = content.split_at(m.program);
    let (start, rest) = rest.split_at(m.start);
    let (count, _) = rest.split_at(m.count);
    Numbers {
        program: small(program),
        start: small(start),
        count: count_of(count),
    }
}

// Points follow.
fn is_points(follows: Follows) -> bool
    ensures { result ≡ have_points follows }
{
    matches!(follows, Follows::Points)
}

// A change type follows.
fn is_type(follows: Follows) -> bool
    ensures { result ≡ have_type follows }
{
    matches!(follows, Follows::ChangeType)
}

// What follows the fields is as long as it should be, behind a count of units of so many bytes.
pub fn is_long(follows: Follows, unit: usize, count: usize, rest: &[u8]) -> bool
    requires { (count * unit < 4294967296) × (have_points follows ≡ true → all_digits rest.now ≡ true) }
    ensures { result ≡ follows_right follows unit count rest.now }
{
    let n = rest.len();
    match follows {
        Follows::Nothing => n == 0,
        Follows::TenBytes => n == 10,
        Follows::AxisPattern => n == 2,
        Follows::Points => fills(rest, count),
        Follows::RunBytes => n == 2 * (count * unit),
        Follows::ChangeType => n == 1,
    }
}

// A pattern is not 00, and each of its axes is fitted.
#[tactic(auto, unfolding(table::specs::Table::pattern_fits))]
fn fits_pattern(pattern: u8, fitted: u8) -> bool
    ensures { result ≡ pattern_fits fitted pattern }
{
    pattern != 0 && pattern & fitted == pattern
}

// So does the pattern of each of so many points.
fn fit_patterns(digits: &[u8], count: usize, fitted: u8) -> bool
    requires { (all_digits digits.now ≡ true) × (fills_of count digits.now ≡ true) }
    ensures { result ≡ patterns_fit fitted count digits.now }
{
    let mut rest = digits;
    for _ in 0..count {
        let pattern = small(&rest[..2]) as u8;
        if !fits_pattern(pattern, fitted) {
            return false;
        }
        rest = &rest[point_length(rest)..];
    }
    true
}

// Refusal 107.
pub fn is_unfit(follows: Follows, count: usize, rest: &[u8], fitted: u8) -> bool
    requires { have_points follows ≡ true → (all_digits rest.now ≡ true) × (fills_of count rest.now ≡ true) }
    ensures { result ≡ have_points follows && not (patterns_fit fitted count rest.now) }
{
    is_points(follows) && !fit_patterns(rest, count, fitted)
}

// Refusal 108.
pub fn is_unlisted(follows: Follows, rest: &[u8]) -> bool
    requires { have_type follows ≡ true → length rest.now ≡ 1 }
    ensures { result ≡ have_type follows && not (leb (number_of rest.now) 1) }
{
    is_type(follows) && small(rest) > 1
}
