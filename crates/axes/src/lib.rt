// The axis records that the motion board lends: as one run of records, or read out of their bytes (document 01, "The areas").
#![tactic(auto)]

ghost use Rattle.std.specs.Prelude.{◌≡◌, ◌+◌, ◌≤◌, length, drop, replicate};
ghost use Rattle.axes.specs.Records.{zero_record, records_of};
ghost use Rattle.axes.specs.Run.{lent_axes};
ghost use Rattle.axes.specs.Axes.{record_in, records_in, axes_in};

use areas::bytes::{four_at, two_at};
use points::units::Position;

// What the motion board lends of one axis.
#[derive(Clone, Copy)]
pub struct AxisRecord {
    pub status: u8,
    pub sensor: u8,
    pub error: u16,
    pub encoder: u8,
    pub position: Position,
}

// The eight axis records, or none where another count was lent: refusal 5.
pub type Axes = Option<[AxisRecord; 8]>;

// What stands for the records where there are not eight.
fn no_records() -> [AxisRecord; 8]
    ensures { result ≡ replicate 8 zero_record }
{
    let zero = AxisRecord {
        status: 0,
        sensor: 0,
        error: 0,
        encoder: 0,
        position: Position(0),
    };
    [zero; 8]
}

// The eight records; zeros stand for them where there are not eight.
pub fn records_of(axes: Axes) -> [AxisRecord; 8]
    ensures { result ≡ records_of axes }
{
    axes.unwrap_or(no_records())
}

// A run of eight as an array by value, since everything behind it takes the records so.
pub fn eight_of(records: &[AxisRecord]) -> [AxisRecord; 8]
    requires { length records.now ≡ 8 }
    ensures { result ≡ records.now }
{
    [
        records[0], records[1], records[2], records[3], records[4], records[5], records[6],
        records[7],
    ]
}

// The lent run is read here alone, so that the rest takes the array by value.
pub fn axes_of(records: &[AxisRecord]) -> Axes
    ensures { result ≡ lent_axes records.now }
{
    if records.len() == 8 {
        Some(eight_of(records))
    } else {
        None
    }
}

// The record whose nine bytes stand at a place.
fn record_at(bytes: &[u8], at: usize) -> AxisRecord
    requires { at + 9 ≤ length bytes.now }
    ensures { result ≡ record_in (drop at bytes.now) }
{
    let status = bytes[at];
    let sensor = bytes[at + 1];
    let error = two_at(bytes, at + 2);
    let encoder = bytes[at + 4];
    let position = Position::of(four_at(bytes, at + 5));
    AxisRecord {
        status,
        sensor,
        error,
        encoder,
        position,
    }
}

// Eight records, one behind the other: axis 1 first.
fn records_in(bytes: &[u8]) -> [AxisRecord; 8]
    requires { 72 ≤ length bytes.now }
    ensures { result ≡ records_in 8 bytes.now }
{
    let mut records = no_records();
    for next in 0..8 {
        records[next] = record_at(bytes, next * 9);
    }
    records
}

// Eight records of nine bytes; any other length is not eight records.
pub fn read_axes(bytes: &[u8]) -> Axes
    ensures { result ≡ axes_in bytes.now }
{
    if bytes.len() != 72 {
        return None;
    }
    Some(records_in(bytes))
}
