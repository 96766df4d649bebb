// The messages that the board answers, a row each (document 01, "What the board answers" and "Each message"; document 02, a).
#![tactic(auto)]

ghost use Rattle.std.specs.Prelude.{◌≡◌};
ghost use Rattle.table.specs.Table.{row, message_numbered};

use crate::Action::{
    AxisStatus, ChangeRun, ClearRun, CountPoints, ListPoints, ReadRun, SayBack, SetFlag, ShowFlags,
    WritePoints,
};
use crate::Follows::{AxisPattern, ChangeType, Nothing, Points, RunBytes, TenBytes};
use kinds::Kind;

// What follows the fields of a content.
#[derive(Clone, Copy)]
pub enum Follows {
    Nothing,
    TenBytes,
    AxisPattern,
    Points,
    RunBytes,
    ChangeType,
}

// What a message has the board do.
#[derive(Clone, Copy)]
pub enum Action {
    SayBack,
    CountPoints,
    ListPoints,
    ReadRun,
    AxisStatus,
    WritePoints,
    ClearRun,
    ChangeRun,
    ShowFlags,
    SetFlag,
}

// A row: the ID, how many digits program, start and count have, the tag of the kind that it asks of, what follows these
// fields, what it does, and whether the reply repeats them.
#[derive(Clone, Copy)]
pub struct Message {
    pub id: u16,
    pub program: usize,
    pub start: usize,
    pub count: usize,
    pub tag: u8,
    pub follows: Follows,
    pub does: Action,
    pub repeats: bool,
}

// A row of the table, as it is written there.
fn row(
    id: u16,
    program: usize,
    start: usize,
    count: usize,
    tag: u8,
    follows: Follows,
    does: Action,
    repeats: bool,
) -> Message
    ensures { result ≡ row id program start count tag follows does repeats }
{
    Message {
        id,
        program,
        start,
        count,
        tag,
        follows,
        does,
        repeats,
    }
}

// The message of an ID: the table; any other message is unknown.
#[tactic(auto, unfolding(crate::specs::Table::message_numbered))]
pub fn numbered(id: u64) -> Option<Message>
    ensures { result ≡ message_numbered id }
{
    let message = match id {
        0x200 => row(0x200, 0, 0, 0, 0, TenBytes, SayBack, false),
        0x208 => row(0x208, 0, 0, 0, Kind::POINTS, Nothing, CountPoints, false),
        0x209 => row(0x209, 0, 3, 3, Kind::POINTS, Nothing, ListPoints, false),
        0x20d => row(0x20d, 2, 4, 4, Kind::FLAGS, Nothing, ShowFlags, true),
        0x20e => row(0x20e, 2, 3, 2, Kind::INTEGERS, Nothing, ReadRun, true),
        0x210 => row(0x210, 2, 3, 2, Kind::COLUMNS, Nothing, ReadRun, true),
        0x212 => row(0x212, 0, 0, 0, 0, AxisPattern, AxisStatus, false),
        0x244 => row(0x244, 0, 3, 3, Kind::POINTS, Points, WritePoints, true),
        0x246 => row(0x246, 0, 3, 3, Kind::POINTS, Nothing, ClearRun, false),
        0x24b => row(0x24b, 2, 4, 0, Kind::FLAGS, ChangeType, SetFlag, false),
        0x24c => row(0x24c, 2, 3, 2, Kind::INTEGERS, RunBytes, ChangeRun, true),
        0x24e => row(0x24e, 2, 3, 2, Kind::COLUMNS, RunBytes, ChangeRun, false),
        _ => return None,
    };
    Some(message)
}
