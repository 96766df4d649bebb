// Plays the second program's cases (second/README.md, "Vectors"), and writes a line for each call.
#![tactic(auto)]

ghost use Rattle.std.specs.Prelude.{OnErr, ◌≡◌, ◌≤◌, ◌<◌, length, IfOk, IfSome};

use axes::read_axes;
use back::step_back;
use calls::{Areas, AreasRead, Kept, Sent, Settings, sum_code};
use finder::{Found, find, frame_in};
use kinds::Firsts;
use lent::answer_lent;
use link::{Answered, act, answer, check};
use messages::refusal::number_of;
use messages::show;
use std::io;
use std::io::Read;

// The whole buffers. A call is lent the front of each.
#[derive(Drop)]
struct Memory {
    points: [u8; 60000],
    columns: [u8; 720],
    integers: [u8; 420],
    flags: [u8; 320],
    journal: [u8; 65600],
    reply: [u8; 1100],
    axes: [u8; 80],
}

// How much of each buffer is lent, the settings, and what is kept.
#[derive(Clone, Copy)]
struct Board {
    points: usize,
    columns: usize,
    integers: usize,
    flags: usize,
    journal: usize,
    reply: usize,
    axes: usize,
    settings: Settings,
    firsts: Firsts,
    kept: Kept,
}

// The bytes of an operation from a place on, a zero for each that is not there.
fn bytes_at<const N: usize>(operation: &[u8], at: usize) -> [u8; N] {
    let mut bytes = [0; N];
    for (to, from) in bytes.iter_mut().zip(operation.iter().skip(at)) {
        *to = *from;
    }
    bytes
}

fn byte_at(operation: &[u8], at: usize) -> u8 {
    operation.get(at).copied().unwrap_or(0)
}

// A number of two bytes, high byte first.
fn two(operation: &[u8], at: usize) -> u16 {
    u16::from_be_bytes(bytes_at(operation, at))
}

fn four(operation: &[u8], at: usize) -> usize {
    u32::from_be_bytes(bytes_at(operation, at)) as usize
}

fn eight(operation: &[u8], at: usize) -> usize {
    u64::from_be_bytes(bytes_at(operation, at)) as usize
}

// Which axes are fitted, then the station, then the release, then whether '@@' is allowed.
fn settings_at(operation: &[u8], at: usize) -> Settings {
    let [fitted, station, release, unchecked] = bytes_at::<4>(operation, at);
    Settings {
        station,
        release,
        unchecked: unchecked != 0,
        fitted,
    }
}

// The first numbers of integers and of flags.
fn firsts_at(operation: &[u8], at: usize) -> Firsts {
    let [a, b, c, d] = bytes_at::<4>(operation, at);
    Firsts {
        integer: u16::from_be_bytes([a, b]),
        flag: u16::from_be_bytes([c, d]),
    }
}

// The frame, or what was received, behind an operation's letter and its length.
fn frame_of(operation: &[u8]) -> &[u8] {
    operation.get(3..).unwrap_or(&[])
}

// The front of a buffer: so many bytes, or all where it has fewer.
fn part(area: &[u8], many: usize) -> &[u8] {
    &area[..many.min(area.len())]
}

fn lend(area: &mut [u8], many: usize) -> &mut [u8] {
    let n = many.min(area.len());
    &mut area[..n]
}

// (31·h + byte + 1) mod 4,294,967,291, from 0 on, over an area's bytes.
fn digest(area: &[u8]) -> u32 {
    area.iter().fold(0, |h, b| {
        ((u64::from(h) * 31 + u64::from(*b) + 1) % 4294967291) as u32
    })
}

fn say_areas(rt: &impl Print, areas: AreasRead<'_>) -> io::Result<()> {
    let points = digest(areas.points);
    let columns = digest(areas.columns);
    let integers = digest(areas.integers);
    let flags = digest(areas.flags);
    let journal = digest(areas.journal);
    print!(rt; " {points:08X} {columns:08X} {integers:08X} {flags:08X} {journal:08X}")
}

// A frame answered; the records go as a lent run where there are eight of them.
fn answer_to(sent: Sent<'_>, areas: &mut Areas<'_, '_>, reply: &mut [u8]) -> Answered {
    if let Some(records) = sent.axes {
        return answer_lent(sent.frame, areas, &records, sent.settings, reply);
    }
    answer(sent, areas, reply)
}

// 'C': a check, on what is lent.
fn play_check(rt: &impl Print, frame: &[u8], memory: &Memory, board: Board) -> io::Result<()> {
    let areas = AreasRead {
        points: part(&memory.points, board.points),
        columns: part(&memory.columns, board.columns),
        integers: part(&memory.integers, board.integers),
        flags: part(&memory.flags, board.flags),
        journal: part(&memory.journal, board.journal),
        kept: board.kept,
        firsts: board.firsts,
    };
    let sent = Sent {
        frame,
        axes: read_axes(part(&memory.axes, board.axes)),
        settings: board.settings,
    };
    let checked = check(sent, areas);
    let sum = sum_code(checked.sum);
    let shown = show(checked.asked);
    let number = shown.number;
    print!(rt;
        "C {number} {} {} {} {sum}",
        shown.message, shown.start, shown.count
    )?;
    say_areas(rt, areas)?;
    println!(rt; "")
}

// What an answer or an act says, and leaves in the areas.
fn say_answered(
    rt: &impl Print,
    letter: char,
    answered: Answered,
    areas: &Areas<'_, '_>,
    reply: &[u8],
) -> io::Result<()> {
    let number = number_of(answered.outcome);
    let length = answered.length;
    let sum = sum_code(answered.sum);
    print!(rt;
        "{letter} {number} {length} {} {} {sum}",
        areas.kept.used, areas.kept.effective
    )?;
    say_areas(rt, areas.read())?;
    println!(rt; " {:08X}", digest(reply))
}

// 'S': a step back.
fn play_back(rt: &impl Print, areas: &mut Areas<'_, '_>) -> io::Result<()> {
    let number = number_of(step_back(areas));
    print!(rt; "S {number} {} {}", areas.kept.used, areas.kept.effective)?;
    say_areas(rt, areas.read())?;
    println!(rt; "")
}

// 'A', 'F' and 'S': a frame acted on or answered, or a step back, on what is lent; what is kept.
fn play_on(
    rt: &impl Print,
    operation: &[u8],
    memory: &mut Memory,
    board: Board,
) -> io::Result<Kept> {
    let mut areas = Areas {
        points: lend(&mut memory.points, board.points),
        columns: lend(&mut memory.columns, board.columns),
        integers: lend(&mut memory.integers, board.integers),
        flags: lend(&mut memory.flags, board.flags),
        journal: lend(&mut memory.journal, board.journal),
        kept: board.kept,
        firsts: board.firsts,
    };
    let reply = lend(&mut memory.reply, board.reply);
    let sent = Sent {
        frame: frame_of(operation),
        axes: read_axes(part(&memory.axes, board.axes)),
        settings: board.settings,
    };
    match byte_at(operation, 0) {
        b'S' => play_back(rt, &mut areas)?,
        b'A' => {
            let answered = act(sent, &mut areas, reply);
            say_answered(rt, 'A', answered, &areas, reply)?;
        }
        _ => {
            let answered = answer_to(sent, &mut areas, reply);
            say_answered(rt, 'F', answered, &areas, reply)?;
        }
    }
    Ok(areas.kept)
}

// 'R': a look for a frame.
fn play_find(rt: &impl Print, received: &[u8]) -> io::Result<()> {
    let found = find(received);
    let (code, start, drop) = match found {
        Found::Frame { start, used } => (0, start, used),
        Found::Nothing { drop } => (1, 0, drop),
        Found::Wait { drop } => (2, 0, drop),
        Found::TooLong { drop } => (3, 0, drop),
    };
    println!(rt;
        "R {code} {start} {} {drop}",
        frame_in(received, found).len()
    )
}

impl Board {
    // What is lent of a fresh board.
    fn fresh(operation: &[u8]) -> Board {
        Board {
            points: usize::from(two(operation, 1)) * 40,
            columns: 700,
            integers: 400,
            flags: 300,
            journal: four(operation, 7),
            reply: 1024,
            axes: 72,
            settings: settings_at(operation, 3),
            firsts: firsts_at(operation, 11),
            kept: Kept {
                used: 0,
                effective: 0,
            },
        }
    }

    // 'L': another length lent.
    fn lending(self, operation: &[u8]) -> Board {
        let many = four(operation, 2);
        match byte_at(operation, 1) {
            0 => Board {
                points: many,
                ..self
            },
            1 => Board {
                columns: many,
                ..self
            },
            2 => Board {
                integers: many,
                ..self
            },
            3 => Board {
                flags: many,
                ..self
            },
            4 => Board {
                journal: many,
                ..self
            },
            5 => Board {
                reply: many,
                ..self
            },
            _ => Board { axes: many, ..self },
        }
    }
}

impl Memory {
    // 'B': all zeros, but for the reply's bytes.
    fn clear(&mut self) {
        self.points.fill(0);
        self.columns.fill(0);
        self.integers.fill(0);
        self.flags.fill(0);
        self.journal.fill(0);
        self.reply.fill(0xEE);
        self.axes.fill(0);
    }

    // A buffer, by its number in 'X'; an empty one where none has it.
    fn buffer(&mut self, which: u8) -> &mut [u8] {
        match which {
            0 => &mut self.points,
            1 => &mut self.columns,
            2 => &mut self.integers,
            3 => &mut self.flags,
            4 => &mut self.journal,
            5 => &mut self.reply,
            6 => &mut self.axes,
            _ => &mut [],
        }
    }

    // 'X': one byte of a buffer set.
    fn set(&mut self, operation: &[u8]) {
        if let Some(b) = self
            .buffer(byte_at(operation, 1))
            .get_mut(four(operation, 2))
        {
            *b = byte_at(operation, 6);
        }
    }
}

// One operation; the board after it.
fn play(rt: &impl Print, operation: &[u8], memory: &mut Memory, board: Board) -> io::Result<Board> {
    let mut after = board;
    match byte_at(operation, 0) {
        b'B' => {
            memory.clear();
            after = Board::fresh(operation);
        }
        b'X' => memory.set(operation),
        b'L' => after = board.lending(operation),
        b'U' => after.kept.used = eight(operation, 1),
        b'N' => after.kept.effective = eight(operation, 1),
        b'P' => {
            after.settings = settings_at(operation, 1);
            after.firsts = firsts_at(operation, 5);
        }
        b'R' => play_find(rt, frame_of(operation))?,
        b'C' => play_check(rt, frame_of(operation), memory, board)?,
        b'A' | b'F' | b'S' => after.kept = play_on(rt, operation, memory, board)?,
        _ => {}
    }
    Ok(after)
}

// How many bytes an operation has; 0 where none begins.
fn size(rest: &[u8]) -> usize {
    match byte_at(rest, 0) {
        b'B' => 15,
        b'U' | b'N' | b'P' => 9,
        b'X' => 7,
        b'L' => 6,
        b'S' => 1,
        b'F' | b'R' | b'C' | b'A' => 3 + usize::from(two(rest, 1)),
        _ => 0,
    }
}

// The next operation and what comes behind it, where one stands there whole.
fn next(rest: &[u8]) -> Option<(&[u8], &[u8])>
    ensures { IfSome result (λ r. length r.1.now < length rest.now) }
{
    let n = size(rest);
    if n == 0 || rest.len() < n {
        return None;
    }
    Some(rest.split_at(n))
}

// The first operation is a 'B', so the first board is that one.
fn play_all(rt: &impl Print, operations: &[u8], memory: &mut Memory) -> io::Result<()> {
    let mut board = Board::fresh(operations);
    let mut rest = operations;
    while let Some((operation, behind)) = next(rest) {
        board = play(rt, operation, memory, board)?;
        rest = behind;
    }
    Ok(())
}

// What comes, until the area is full or the input ends, and how many bytes it was. Each turn but the last reads one byte at least; a full area is not
// read into, since some inputs refuse a read of no bytes.
fn read_full(input: &mut impl Read, area: &mut [u8]) -> io::Result<usize>
    ensures ok { IfOk result (λ n. n ≤ length area.new) }
    ensures err { OnErr result (length area.new ≡ length area.old) }
{
    let mut have = 0;
    for _ in 0..area.len() {
        if have == area.len() {
            break;
        }
        let n = input.read(&mut area[have..])?;
        if n == 0 {
            break;
        }
        have += n;
    }
    Ok(have)
}

fn main(rt: HostRuntime) -> io::Result<()> {
    let mut operations = [0; 163840];
    // made where it stays: a value that is moved stands on the stack twice
    let mut memory = Memory {
        points: [0; 60000],
        columns: [0; 720],
        integers: [0; 420],
        flags: [0; 320],
        journal: [0; 65600],
        reply: [0; 1100],
        axes: [0; 80],
    };
    let n = read_full(&mut rt.stdin(), &mut operations)?;
    play_all(&rt, &operations[..n], &mut memory)
}
