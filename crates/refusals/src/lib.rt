// The tests behind the refusals without a reply but 1, and the step back's (document 01, "Refusal numbers, in the order tested"; document 02, a: 10;
// b: 11; f: 12; l: 13; g: a check tests them too).
#![tactic(auto)]

ghost use Rattle.std.specs.Prelude.{◌≡◌, true, cond, not, ◌++◌, ◌≤◌, length};
ghost use Rattle.frames.specs.Frame.{sum_said};
ghost use Rattle.kinds.specs.Kinds.{Sound};
ghost use Rattle.table.specs.Table.{message_numbered, message_of};
ghost use Rattle.calls.specs.Lent.{lengths_tested};
ghost use Rattle.messages.specs.Refusal.{number_by};
ghost use Rattle.messages.specs.Rows.{first_of};
ghost use Rattle.refusals.specs.Refusals.{points_fit, variables_fit, journal_fits, records_fit, axes_fit, release_fits, count_true, miscounted, area_rows, check_rows, rows_from_sum, told_after, back_rows};

use axes::{Axes, AxisRecord};
use calls::{AreasTested, Sent};
use frames::checks::{Sum, is_ours, is_shaped, test_sum};
use journal::is_whole;
use kinds::{Firsts, Held, held_in};
use messages::refusal::Refusal;
use points::point::Point;
use slots::count_effective;

// What a frame's tests before its message say: passed or refused without a reply, and what is told of the sum.
#[derive(Clone, Copy)]
pub struct Hearing {
    pub passed: Result<(), Refusal>,
    pub sum: Option<Sum>,
}

// Refusal 2, passed: a multiple of 40 from 40 to 60,000.
#[tactic(auto, unfolding(crate::specs::Refusals::points_fit))]
fn fits_points(points: usize) -> bool
    ensures { result ≡ points_fit points }
{
    points % Point::SLOT == 0 && Point::SLOT <= points && points <= 60000
}

// Refusal 10, passed: 400 bytes of integers, 300 of flags, and last numbers that fit into their fields.
#[tactic(auto, unfolding(crate::specs::Refusals::variables_fit))]
fn fits_variables(integers: usize, flags: usize, firsts: Firsts) -> bool
    ensures { result ≡ variables_fit integers flags firsts }
{
    integers == 400
        && flags == 300
        && usize::from(firsts.integer) + 99 <= 0xFFF
        && usize::from(firsts.flag) + 299 <= 0xFFFF
}

// Refusal 4, passed: the journal's length, the used length, and whole well-formed entries.
#[tactic(auto, unfolding(crate::specs::Refusals::journal_fits))]
fn fits_journal(journal: &[u8], used: usize, held: Held) -> bool
    requires { Sound held }
    ensures { result ≡ journal_fits held journal.now used }
{
    40 * held.points + 500 <= journal.len()
        && journal.len() <= 65536
        && used <= journal.len()
        && is_whole(&journal[..used], held)
}

// A sensor is 0 to 15, an error code 0 to 4,095.
fn fits_records(records: [AxisRecord; 8]) -> bool
    ensures { result ≡ records_fit records }
{
    for record in records {
        if record.sensor > 15 || record.error > 4095 {
            return false;
        }
    }
    true
}

// Refusal 5, passed: eight records, no sensor or error code too large, a fitted axis.
#[tactic(auto, unfolding(crate::specs::Refusals::axes_fit))]
fn fits_axes(axes: Axes, fitted: u8) -> bool
    ensures { result ≡ axes_fit axes fitted }
{
    match axes {
        Some(records) => fits_records(records) && fitted != 0,
        None => false,
    }
}

// Tests 2, 3, 10 and 4, of a frame and of a step back.
fn test_areas(areas: AreasTested<'_>) -> Result<(), Refusal>
    ensures { number_by result ≡ first_of (area_rows (lengths_tested areas.entry) areas.entry.journal.now areas.entry.kept) }
{
    let lengths = areas.lengths();
    if !fits_points(lengths.points) {
        return Err(Refusal::PointsArea);
    }
    if lengths.columns != 700 {
        return Err(Refusal::ColumnsArea);
    }
    if !fits_variables(lengths.integers, lengths.flags, lengths.firsts) {
        return Err(Refusal::VariableAreas);
    }
    if !fits_journal(areas.journal, areas.kept.used, held_in(lengths)) {
        return Err(Refusal::JournalArea);
    }
    Ok(())
}

// Refusal 13, passed: release 1 or 2.
#[tactic(auto, unfolding(crate::specs::Refusals::release_fits))]
fn fits_release(release: u8) -> bool
    ensures { result ≡ release_fits release }
{
    release == 1 || release == 2
}

// The count that is kept is the slots' own: these are walked.
fn is_count_true(points: &[u8], effective: usize) -> bool
    requires { points_fit (length points.now) ≡ true }
    ensures { result ≡ count_true points.now effective }
{
    effective == count_effective(points, points.len() / Point::SLOT)
}

// Refusal 11, passed, by an ID: 244H and 246H need a true count, 208H one that isn't above N, and no other message looks at it.
#[tactic(auto, unfolding(table::specs::Table::message_numbered))]
fn fits_count(id: u64, points: &[u8], effective: usize) -> bool
    requires { points_fit (length points.now) ≡ true }
    ensures { result ≡ not (miscounted (message_numbered id) points.now effective) }
{
    match id {
        0x244 | 0x246 => is_count_true(points, effective),
        0x208 => effective <= points.len() / Point::SLOT,
        _ => true,
    }
}

// Test 11, by the frame's ID.
fn test_count(release: u8, frame: &[u8], points: &[u8], effective: usize) -> Result<(), Refusal>
    requires { (10 ≤ length frame.now) × (points_fit (length points.now) ≡ true) }
    ensures { number_by result ≡ cond (miscounted (message_of release frame.now) points.now effective) 11 0 }
{
    match digits::read_field(release, &frame[3..6]) {
        Some(id) if !fits_count(id, points, effective) => Err(Refusal::KeptCount),
        _ => Ok(()),
    }
}

// Tests 12, 7 and 8, by what the sum test said, and 11.
fn test_late(sum: Sum, sent: Sent<'_>, areas: AreasTested<'_>) -> Result<(), Refusal>
    requires { (10 ≤ length sent.frame.now) × (sum ≡ sum_said sent.settings.release sent.frame.now) × (points_fit (length areas.points.now) ≡ true) }
    ensures { number_by result ≡ first_of (rows_from_sum sent.entry.settings sent.entry.frame.now areas.entry.points.now areas.entry.kept) }
{
    let settings = sent.settings;
    match sum {
        Sum::True => {}
        Sum::SwitchedOff if settings.unchecked => {}
        Sum::SwitchedOff => return Err(Refusal::SumSwitchedOff),
        Sum::Wrong => return Err(Refusal::WrongSum),
    }
    if !is_ours(settings.release, settings.station, sent.frame) {
        return Err(Refusal::OtherStation);
    }
    test_count(
        settings.release,
        sent.frame,
        areas.points,
        areas.kept.effective,
    )
}

// Tests 2 to 6, 10 and 13.
fn test_early(sent: Sent<'_>, areas: AreasTested<'_>) -> Result<(), Refusal>
    ensures { let s = sent.entry in let t = areas.entry in number_by result ≡ first_of (check_rows s.frame.now s.axes s.settings (lengths_tested t) t.journal.now t.kept) }
{
    test_areas(areas)?;
    if !fits_axes(sent.axes, sent.settings.fitted) {
        return Err(Refusal::AxisRecords);
    }
    if !fits_release(sent.settings.release) {
        return Err(Refusal::Release);
    }
    if !is_shaped(sent.frame) {
        return Err(Refusal::Shape);
    }
    Ok(())
}

// Whether the refusals without a reply are passed, 2 to 8 and 10 to 13, and what is told of the sum; 1 is tested where there is a reply area, before all this.
pub fn silent(sent: Sent<'_>, areas: AreasTested<'_>) -> Hearing
    ensures number_value { let s = sent.entry in let t = areas.entry in number_by result.passed
        ≡ first_of (check_rows s.frame.now s.axes s.settings (lengths_tested t) t.journal.now t.kept ++ rows_from_sum s.settings s.frame.now t.points.now t.kept) }
    ensures sum_value { let s = sent.entry in let t = areas.entry in result.sum
        ≡ told_after (first_of (check_rows s.frame.now s.axes s.settings (lengths_tested t) t.journal.now t.kept)) s.settings.release s.frame.now }
{
    if let Err(refusal) = test_early(sent, areas) {
        return Hearing {
            passed: Err(refusal),
            sum: None,
        };
    }
    let sum = test_sum(sent.settings.release, sent.frame);
    Hearing {
        passed: test_late(sum, sent, areas),
        sum: Some(sum),
    }
}

// The step back's tests: 2, 3, 10, 4, 11, then 9.
#[tactic(auto, using(crate::proofs::Rows::back_9))]
pub fn back_refusal(areas: AreasTested<'_>) -> Result<(), Refusal>
    ensures { let t = areas.entry in number_by result ≡ first_of (back_rows (lengths_tested t) t.points.now t.journal.now t.kept) }
{
    test_areas(areas)?;
    if !is_count_true(areas.points, areas.kept.effective) {
        return Err(Refusal::KeptCount);
    }
    if areas.kept.used == 0 {
        return Err(Refusal::NothingToStepBack);
    }
    Ok(())
}
