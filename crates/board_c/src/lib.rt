// The C calls of include/cabinet.h: each is the function of the crate `board` of the same name, with its contract. C declares a slice as a pointer and a
// length, and a `&mut` as a pointer.
#![tactic(auto)]

ghost use Rattle.std.specs.Prelude.{[]};
ghost use Rattle.finder.specs.Find.{find_in};
ghost use Rattle.axes.specs.Axes.{axes_in};
ghost use Rattle.calls.specs.Calls.{areas_of, call_of};
ghost use Rattle.back.specs.Back.{StepsBack};
ghost use Rattle.board.specs.Calls.{Receives, settings_of, kept_of, firsts_of, CabinetAnswers, CabinetActs, CabinetChecks, backed_of};

// 0 a frame, 1 nothing, 2 wait, 3 too long.
#[unsafe(no_mangle)]
pub extern "C" fn cabinet_receive(
    received: &[u8],
    start: &mut usize,
    length: &mut usize,
    drop: &mut usize,
) -> u8
    ensures { Receives (find_in received.now) result start.new length.new drop.new }
{
    board::cabinet_receive(received, start, length, drop)
}

// The refusal number, never 1, 0 where the frame would be done; everything is only read.
#[unsafe(no_mangle)]
pub extern "C" fn cabinet_check(
    frame: &[u8],
    points: &[u8],
    columns: &[u8],
    integers: &[u8],
    flags: &[u8],
    journal: &[u8],
    used: usize,
    effective: usize,
    axes: &[u8],
    fitted: u8,
    station: u8,
    release: u8,
    unchecked: u8,
    first_integer: u16,
    first_flag: u16,
    sum: &mut u8,
    message: &mut u16,
    start: &mut usize,
    count: &mut usize,
) -> u16
    ensures { CabinetChecks
        (call_of frame.now (axes_in axes.now) (settings_of fitted station release unchecked) []
        (areas_of points.now columns.now integers.now flags.now journal.now
        (kept_of used effective) (firsts_of first_integer first_flag)))
        result sum.new message.new start.new count.new }
{
    board::cabinet_check(
        frame,
        points,
        columns,
        integers,
        flags,
        journal,
        used,
        effective,
        axes,
        fitted,
        station,
        release,
        unchecked,
        first_integer,
        first_flag,
        sum,
        message,
        start,
        count,
    )
}

// The refusal number, 0 where accepted: the check again, and what it answers done.
#[unsafe(no_mangle)]
pub extern "C" fn cabinet_act(
    frame: &[u8],
    points: &mut [u8],
    columns: &mut [u8],
    integers: &mut [u8],
    flags: &mut [u8],
    journal: &mut [u8],
    used: &mut usize,
    effective: &mut usize,
    axes: &[u8],
    fitted: u8,
    station: u8,
    release: u8,
    unchecked: u8,
    first_integer: u16,
    first_flag: u16,
    reply: &mut [u8],
    length: &mut usize,
    sum: &mut u8,
) -> u16
    ensures { CabinetActs
        (call_of frame.now (axes_in axes.now) (settings_of fitted station release unchecked) reply.old
        (areas_of points.old columns.old integers.old flags.old journal.old
        (kept_of used.old effective.old) (firsts_of first_integer first_flag)))
        result length.new used.new effective.new sum.new
        (areas_of points.new columns.new integers.new flags.new journal.new
        (kept_of used.new effective.new) (firsts_of first_integer first_flag)) reply.new }
{
    board::cabinet_act(
        frame,
        points,
        columns,
        integers,
        flags,
        journal,
        used,
        effective,
        axes,
        fitted,
        station,
        release,
        unchecked,
        first_integer,
        first_flag,
        reply,
        length,
        sum,
    )
}

// The refusal number, 0 where accepted: check and act in one.
#[unsafe(no_mangle)]
pub extern "C" fn cabinet_answer(
    frame: &[u8],
    points: &mut [u8],
    columns: &mut [u8],
    integers: &mut [u8],
    flags: &mut [u8],
    journal: &mut [u8],
    used: &mut usize,
    effective: &mut usize,
    axes: &[u8],
    fitted: u8,
    station: u8,
    release: u8,
    unchecked: u8,
    first_integer: u16,
    first_flag: u16,
    reply: &mut [u8],
    length: &mut usize,
    sum: &mut u8,
) -> u16
    ensures { CabinetAnswers
        (call_of frame.now (axes_in axes.now) (settings_of fitted station release unchecked) reply.old
        (areas_of points.old columns.old integers.old flags.old journal.old
        (kept_of used.old effective.old) (firsts_of first_integer first_flag)))
        result length.new used.new effective.new sum.new
        (areas_of points.new columns.new integers.new flags.new journal.new
        (kept_of used.new effective.new) (firsts_of first_integer first_flag)) reply.new }
{
    board::cabinet_answer(
        frame,
        points,
        columns,
        integers,
        flags,
        journal,
        used,
        effective,
        axes,
        fitted,
        station,
        release,
        unchecked,
        first_integer,
        first_flag,
        reply,
        length,
        sum,
    )
}

// The refusal number, 0 where a write was taken back.
#[unsafe(no_mangle)]
pub extern "C" fn cabinet_step_back(
    points: &mut [u8],
    columns: &mut [u8],
    integers: &mut [u8],
    flags: &mut [u8],
    journal: &mut [u8],
    used: &mut usize,
    effective: &mut usize,
    first_integer: u16,
    first_flag: u16,
) -> u16
    ensures { StepsBack
        (areas_of points.old columns.old integers.old flags.old journal.old
        (kept_of used.old effective.old) (firsts_of first_integer first_flag))
        (backed_of result used.new effective.new)
        (areas_of points.new columns.new integers.new flags.new journal.new
        (kept_of used.new effective.new) (firsts_of first_integer first_flag)) }
{
    board::cabinet_step_back(
        points,
        columns,
        integers,
        flags,
        journal,
        used,
        effective,
        first_integer,
        first_flag,
    )
}
