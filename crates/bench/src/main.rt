// The bench program (document 01): frames from standard input, replies to standard output.
#![tactic(auto)]

ghost use Rattle.std.specs.Prelude.{OnErr, ◌≡◌, ◌+◌, ◌≤◌, length, IfOk, IfSome};

use axes::read_axes;
use calls::{Areas, Kept, Sent, Settings};
use finder::{Found, find, frame_in};
use kinds::Firsts;
use link::answer;
use std::io;
use std::io::Read;

// Station 99H, release 1, '@@' allowed, all eight axes.
const SETTINGS: Settings = Settings {
    station: 0x99,
    release: 1,
    unchecked: true,
    fitted: 0xFF,
};

// Integers from 200 and flags from 600 on.
const FIRSTS: Firsts = Firsts {
    integer: 200,
    flag: 600,
};

// One frame answered, with axis records of zeros.
fn serve(rt: &impl Print, frame: &[u8], areas: &mut Areas<'_, '_>) -> io::Result<()> {
    let mut reply = [0; 1024];
    let sent = Sent {
        frame,
        axes: read_axes(&[0; 72]),
        settings: SETTINGS,
    };
    let answered = answer(sent, areas, &mut reply);
    if let Some(text) = reply.get(..answered.length) {
        rt.write_all(text)?;
    }
    Ok(())
}

// What was dropped goes, and more is read: how many bytes are there then, none at the end of the input. A line of 2,048 bytes has room after "wait".
fn pull(
    input: &mut impl Read,
    line: &mut [u8],
    drop: usize,
    have: usize,
) -> io::Result<Option<usize>>
    requires { (drop ≤ have) × (have ≤ length line.old) }
    ensures ok { IfOk result (λ left. IfSome left (λ n. n ≤ length line.old)) }
    ensures err { OnErr result (length line.new ≡ length line.old) }
{
    let left = have - drop;
    line.copy_within(drop..have, 0);
    let n = input.read(&mut line[left..])?;
    if n == 0 {
        return Ok(None);
    }
    Ok(Some(left + n))
}

// One frame answered, or more read: how many bytes are left, none at the end of the input.
fn go_on(
    rt: &impl Print,
    input: &mut impl Read,
    line: &mut [u8],
    have: usize,
    areas: &mut Areas<'_, '_>,
) -> io::Result<Option<usize>>
    requires { have ≤ length line.old }
    ensures ok { IfOk result (λ left. IfSome left (λ n. n ≤ length line.old)) }
    ensures err { OnErr result (length line.new ≡ length line.old) }
{
    let found = find(&line[..have]);
    match found {
        Found::Frame { used, .. } => {
            serve(rt, frame_in(&line[..have], found), areas)?;
            line.copy_within(used..have, 0);
            Ok(Some(have - used))
        }
        Found::TooLong { drop } => {
            line.copy_within(drop..have, 0);
            Ok(Some(have - drop))
        }
        Found::Nothing { drop } | Found::Wait { drop } => pull(input, line, drop, have),
    }
}

// Frame after frame to the end of the input; no input has as many turns as are counted here.
fn all(
    rt: &impl Print,
    input: &mut impl Read,
    line: &mut [u8],
    areas: &mut Areas<'_, '_>,
) -> io::Result<()> {
    let mut have = 0;
    for _ in 0..u64::MAX {
        let Some(left) = go_on(rt, input, line, have, areas)? else {
            return Ok(());
        };
        have = left;
    }
    Ok(())
}

fn main(rt: HostRuntime) -> io::Result<()> {
    let mut areas = Areas {
        points: &mut [0; 20000],
        columns: &mut [0; 700],
        integers: &mut [0; 400],
        flags: &mut [0; 300],
        journal: &mut [0; 32768],
        kept: Kept {
            used: 0,
            effective: 0,
        },
        firsts: FIRSTS,
    };
    all(&rt, &mut rt.stdin(), &mut [0; 2048], &mut areas)
}
