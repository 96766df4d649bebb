// The calls that the board's C host makes (include/cabinet.h); the crate board_c exports them.
#![tactic(auto)]

ghost use Rattle.std.specs.Prelude.{◌≡◌, []};
ghost use Rattle.finder.specs.Find.{find_in};
ghost use Rattle.axes.specs.Axes.{axes_in};
ghost use Rattle.calls.specs.Calls.{areas_of, call_of};
ghost use Rattle.back.specs.Back.{StepsBack};
ghost use Rattle.board.specs.Calls.{Receives, settings_of, kept_of, firsts_of, CabinetAnswers, CabinetActs, CabinetChecks, backed_of};

use axes::read_axes;
use back::step_back;
use calls::{Areas, AreasRead, Kept, Sent, Settings, sum_code};
use finder::{Found, find, frame_in};
use kinds::Firsts;
use link::{act, check};
use messages::refusal::number_of;
use messages::show;

// 0 a frame, 1 nothing, 2 wait, 3 too long.
pub fn cabinet_receive(
    received: &[u8],
    start: &mut usize,
    length: &mut usize,
    drop: &mut usize,
) -> u8
    ensures { Receives (find_in received.now) result start.new length.new drop.new }
{
    let found = find(received);
    let frame = frame_in(received, found);
    *start = 0;
    *length = frame.len();
    match found {
        Found::Frame { start: s, used: u } => {
            *start = s;
            *drop = u;
            0
        }
        Found::Nothing { drop: d } => {
            *drop = d;
            1
        }
        Found::Wait { drop: d } => {
            *drop = d;
            2
        }
        Found::TooLong { drop: d } => {
            *drop = d;
            3
        }
    }
}

// A frame's settings: 0 forbids '@@', and any other value allows it.
fn settings_by(fitted: u8, station: u8, release: u8, unchecked: u8) -> Settings
    ensures { result ≡ settings_of fitted station release unchecked }
{
    Settings {
        station,
        release,
        unchecked: unchecked != 0,
        fitted,
    }
}

// The refusal number, never 1, 0 where the frame would be done; everything is only read.
pub fn cabinet_check(
    frame: &[u8],
    points: &[u8],
    columns: &[u8],
    integers: &[u8],
    flags: &[u8],
    journal: &[u8],
    used: usize,
    effective: usize,
    axes: &[u8],
    fitted: u8,
    station: u8,
    release: u8,
    unchecked: u8,
    first_integer: u16,
    first_flag: u16,
    sum: &mut u8,
    message: &mut u16,
    start: &mut usize,
    count: &mut usize,
) -> u16
    ensures { CabinetChecks
        (call_of frame.now (axes_in axes.now) (settings_of fitted station release unchecked) []
        (areas_of points.now columns.now integers.now flags.now journal.now
        (kept_of used effective) (firsts_of first_integer first_flag)))
        result sum.new message.new start.new count.new }
{
    let firsts = Firsts {
        integer: first_integer,
        flag: first_flag,
    };
    let areas = AreasRead {
        points,
        columns,
        integers,
        flags,
        journal,
        kept: Kept { used, effective },
        firsts,
    };
    let sent = Sent {
        frame,
        axes: read_axes(axes),
        settings: settings_by(fitted, station, release, unchecked),
    };
    let checked = check(sent, areas);
    let asked = checked.asked;
    let told = checked.sum;
    let shown = show(asked);
    *sum = sum_code(told);
    *message = shown.message;
    *start = shown.start;
    *count = shown.count;
    shown.number
}

// The refusal number, 0 where accepted: the check again, and what it answers done.
pub fn cabinet_act(
    frame: &[u8],
    points: &mut [u8],
    columns: &mut [u8],
    integers: &mut [u8],
    flags: &mut [u8],
    journal: &mut [u8],
    used: &mut usize,
    effective: &mut usize,
    axes: &[u8],
    fitted: u8,
    station: u8,
    release: u8,
    unchecked: u8,
    first_integer: u16,
    first_flag: u16,
    reply: &mut [u8],
    length: &mut usize,
    sum: &mut u8,
) -> u16
    ensures { CabinetActs
        (call_of frame.now (axes_in axes.now) (settings_of fitted station release unchecked) reply.old
        (areas_of points.old columns.old integers.old flags.old journal.old
        (kept_of used.old effective.old) (firsts_of first_integer first_flag)))
        result length.new used.new effective.new sum.new
        (areas_of points.new columns.new integers.new flags.new journal.new
        (kept_of used.new effective.new) (firsts_of first_integer first_flag)) reply.new }
{
    let settings = settings_by(fitted, station, release, unchecked);
    let kept = Kept {
        used: *used,
        effective: *effective,
    };
    let firsts = Firsts {
        integer: first_integer,
        flag: first_flag,
    };
    let mut areas = Areas {
        points,
        columns,
        integers,
        flags,
        journal,
        kept,
        firsts,
    };
    let sent = Sent {
        frame,
        axes: read_axes(axes),
        settings,
    };
    let answered = act(sent, &mut areas, reply);
    let after = answered.kept;
    let told = answered.sum;
    *used = after.used;
    *effective = after.effective;
    *length = answered.length;
    *sum = sum_code(told);
    number_of(answered.outcome)
}

// The refusal number, 0 where accepted: check and act in one.
pub fn cabinet_answer(
    frame: &[u8],
    points: &mut [u8],
    columns: &mut [u8],
    integers: &mut [u8],
    flags: &mut [u8],
    journal: &mut [u8],
    used: &mut usize,
    effective: &mut usize,
    axes: &[u8],
    fitted: u8,
    station: u8,
    release: u8,
    unchecked: u8,
    first_integer: u16,
    first_flag: u16,
    reply: &mut [u8],
    length: &mut usize,
    sum: &mut u8,
) -> u16
    ensures { CabinetAnswers
        (call_of frame.now (axes_in axes.now) (settings_of fitted station release unchecked) reply.old
        (areas_of points.old columns.old integers.old flags.old journal.old
        (kept_of used.old effective.old) (firsts_of first_integer first_flag)))
        result length.new used.new effective.new sum.new
        (areas_of points.new columns.new integers.new flags.new journal.new
        (kept_of used.new effective.new) (firsts_of first_integer first_flag)) reply.new }
{
    cabinet_act(
        frame,
        points,
        columns,
        integers,
        flags,
        journal,
        used,
        effective,
        axes,
        fitted,
        station,
        release,
        unchecked,
        first_integer,
        first_flag,
        reply,
        length,
        sum,
    )
}

// The refusal number, 0 where a write was taken back.
pub fn cabinet_step_back(
    points: &mut [u8],
    columns: &mut [u8],
    integers: &mut [u8],
    flags: &mut [u8],
    journal: &mut [u8],
    used: &mut usize,
    effective: &mut usize,
    first_integer: u16,
    first_flag: u16,
) -> u16
    ensures { StepsBack
        (areas_of points.old columns.old integers.old flags.old journal.old
        (kept_of used.old effective.old) (firsts_of first_integer first_flag))
        (backed_of result used.new effective.new)
        (areas_of points.new columns.new integers.new flags.new journal.new
        (kept_of used.new effective.new) (firsts_of first_integer first_flag)) }
{
    let kept = Kept {
        used: *used,
        effective: *effective,
    };
    let firsts = Firsts {
        integer: first_integer,
        flag: first_flag,
    };
    let mut areas = Areas {
        points,
        columns,
        integers,
        flags,
        journal,
        kept,
        firsts,
    };
    let stepped = step_back(&mut areas);
    let left = areas.kept;
    *used = left.used;
    *effective = left.effective;
    number_of(stepped)
}
