// What a frame asks, 101 to 108 in the order tested: a read-only judgement, and what of it is shown (document 01, "Each message" and "Refusal numbers";
// document 02, a, g and l).
#![tactic(auto)]

ghost use Rattle.std.specs.Prelude.{◌≡◌, not, ◌&&◌, ◌+◌, ◌≤◌, ◌<◌, leb, eqb, length, Some};
ghost use Rattle.kinds.specs.Kinds.{Sound, holds};
ghost use Rattle.table.specs.Table.{message_of, any_bytes, Narrow};
ghost use Rattle.messages.specs.Asked.{asked_by, not_digits, judged, asked_of};
ghost use Rattle.messages.specs.Shown.{Shows};

pub mod refusal; // why a frame or a step back is refused

use crate::refusal::Refusal;
use contents::{content, is_long, is_unfit, is_unlisted, read_numbers};
use kinds::{Held, Kind};
use table::{Follows, Message, numbered};

// What a frame asks that is not refused: a message, with its start number and count.
#[derive(Clone, Copy)]
pub struct Request {
    pub message: Message,
    pub start: usize,
    pub count: usize,
}

// What is shown of it: the refusal's number; or 0, the message's ID, and start and count where it names a run. Numbers, since C is given
// them so (`cabinet_check`).
#[derive(Clone, Copy)]
pub struct Shown {
    pub number: u16,
    pub message: u16,
    pub start: usize,
    pub count: usize,
}

// The message of a frame, its ID in the digits that a release admits.
fn message_in(release: u8, frame: &[u8]) -> Option<Message>
    requires { 10 ≤ length frame.now }
    ensures { result ≡ message_of release frame.now }
{
    let id = digits::read_field(release, &frame[3..6])?;
    numbered(id)
}

// Ten bytes that may be any follow.
fn is_any(follows: Follows) -> bool
    ensures { result ≡ any_bytes follows }
{
    matches!(follows, Follows::TenBytes)
}

// Refusal 102, passed.
fn is_written(release: u8, m: Message, content: &[u8]) -> bool
    ensures { result ≡ not (not_digits release m content.now) }
{
    is_any(m.follows) || digits::all_admitted(release, content)
}

// Refusal 105.
fn is_none(m: Message, count: usize) -> bool
    ensures { result ≡ leb 1 m.count && eqb count 0 }
{
    1 <= m.count && count == 0
}

// Refusal 106.
fn is_beyond(m: Message, k: Kind, start: usize, count: usize) -> bool
    requires { (start < 65536) × (count < 65536) × (k.first + k.held ≤ 65536) }
    ensures { result ≡ leb 1 m.start && not (holds k start count) }
{
    1 <= m.start && !k.has(start, count)
}

// What a message with its content asks: 102 to 108 in this order, or its order.
fn judge_content(
    m: Message,
    content: &[u8],
    held: Held,
    fitted: u8,
    release: u8,
) -> Result<Request, Refusal>
    requires { Narrow m × Sound held }
    ensures { asked_by result ≡ judged held fitted release (Some m) content.now }
{
    if !is_written(release, m, content) {
        return Err(Refusal::NotDigits);
    }
    let fields = m.program + m.start + m.count;
    if content.len() < fields {
        return Err(Refusal::ContentLength);
    }
    let n = read_numbers(m, content);
    let k = held.kind(m.tag);
    let follows = m.follows;
    let rest = &content[fields..];
    if !is_long(follows, k.unit, n.count, rest) {
        return Err(Refusal::ContentLength);
    }
    if n.program != 0 {
        return Err(Refusal::ProgramNumber);
    }
    if is_none(m, n.count) {
        return Err(Refusal::CountZero);
    }
    if is_beyond(m, k, n.start, n.count) {
        return Err(Refusal::NotHeld);
    }
    if is_unfit(follows, n.count, rest, fitted) {
        return Err(Refusal::AxisPattern);
    }
    if is_unlisted(follows, rest) {
        return Err(Refusal::ChangeType);
    }
    Ok(Request {
        message: m,
        start: n.start,
        count: n.count,
    })
}

// What a frame asks of a board that holds so much, with these axes fitted, under a release.
pub fn judge(frame: &[u8], held: Held, fitted: u8, release: u8) -> Result<Request, Refusal>
    requires { (10 ≤ length frame.now) × Sound held }
    ensures { asked_by result ≡ asked_of held fitted release frame.now }
{
    let Some(message) = message_in(release, frame) else {
        return Err(Refusal::UnknownMessage);
    };
    judge_content(message, content(frame), held, fitted, release)
}

// A refusal shows no message, and a message that names no run neither start nor count: 0. Whatever has a number stands for the refusal: a `Refusal`, or
// the number itself, any at all.
pub fn show<E: Into<u16>>(asked: Result<Request, E>) -> Shown
    ensures { Shows E.converts asked result }
{
    match asked {
        Err(refusal) => {
            let number = refusal.into();
            Shown {
                number,
                message: 0,
                start: 0,
                count: 0,
            }
        }
        Ok(request) if request.message.start < 1 => Shown {
            number: 0,
            message: request.message.id,
            start: 0,
            count: 0,
        },
        Ok(request) => Shown {
            number: 0,
            message: request.message.id,
            start: request.start,
            count: request.count,
        },
    }
}
