// The link: every frame answered, at once or by a look before (document 01, and document 02, requests a, b, c, f, g and l).
#![tactic(auto)]

ghost use Rattle.std.specs.Prelude.{◌≡◌, [], ◌≤◌, length, Err};
ghost use Rattle.digits.specs.Laid.{laid};
ghost use Rattle.calls.specs.Lent.{areas_in, areas_read, call_in, SameLent};
ghost use Rattle.messages.specs.Refusal.{refusal_number};
ghost use Rattle.link.specs.Check.{check_of, checked_by, refused_text};
ghost use Rattle.link.specs.Contract.{Heard, accepted, given_by, Answers, Acts, Performs};

use calls::{Areas, AreasRead, Kept, Sent};
use frames::checks::Sum;
use frames::replies::error_reply;
use kinds::{Kind, held_in};
use messages::refusal::Refusal;
use messages::{Request, judge};
use orders::{Done, Order, carry_out};
use refusals::silent;

// The answer to a frame: done or refused, the reply's length, what is handed on, what is told of the sum.
#[derive(Clone, Copy)]
pub struct Answered {
    pub outcome: Result<(), Refusal>,
    pub length: usize,
    pub kept: Kept,
    pub sum: Option<Sum>,
}

// What a check answers: what would be done, or the refusal; what is told of the sum.
#[derive(Clone, Copy)]
pub struct Checked {
    pub asked: Result<Request, Refusal>,
    pub sum: Option<Sum>,
}

// What an order that was carried out gives.
fn accept(done: Done, sum: Option<Sum>) -> Answered
    ensures { given_by result ≡ accepted done sum }
{
    Answered {
        outcome: Ok(()),
        length: done.length,
        kept: done.kept,
        sum,
    }
}

// A refusal: from 101 on with the ten bytes of an error reply.
fn refuse(reply: &mut [u8], station: u8, refusal: Refusal, kept: Kept, sum: Option<Sum>) -> Answered
    requires { 10 ≤ length reply.old }
    ensures number_value { (result.outcome ≡ Err refusal) × (result.length ≡ length (refused_text station (refusal_number refusal)))
        × (result.kept ≡ kept) × (result.sum ≡ sum) }
    ensures reply_after { reply.new ≡ laid reply.old 0 (refused_text station (refusal_number refusal)) }
{
    let number = u16::from(refusal);
    let mut length = 0;
    if number > 100 {
        length = error_reply(reply, station, number);
    }
    Answered {
        outcome: Err(refusal),
        length,
        kept,
        sum,
    }
}

// An order carried out in the area of the message's kind; a message that asks of no kind is handed the last one, and leaves it.
// A call in each arm, since the journal goes along and a chosen `&mut` area beside it is not covered.
fn perform(order: Order, sent: Sent<'_>, areas: &mut Areas<'_, '_>, reply: &mut [u8]) -> Done
    requires { Heard (call_in sent reply.old (areas_in areas.old)) order }
    ensures performs { Performs (call_in sent.entry reply.old (areas_in areas.old)) result
        (record (areas_in areas.new) { kept = result.kept }) reply.new }
    ensures same_lent { SameLent areas.new areas.old }
{
    let kept = areas.kept;
    match order.message.tag {
        Kind::POINTS => carry_out(order, sent, areas.points, areas.journal, kept, reply),
        Kind::COLUMNS => carry_out(order, sent, areas.columns, areas.journal, kept, reply),
        Kind::INTEGERS => carry_out(order, sent, areas.integers, areas.journal, kept, reply),
        _ => carry_out(order, sent, areas.flags, areas.journal, kept, reply),
    }
}

// The first half of an answer: the refusal, never 1, or what would be done. Everything is only read, and there is no reply area.
pub fn check(sent: Sent<'_>, areas: AreasRead<'_>) -> Checked
    ensures { checked_by result ≡ check_of (call_in sent.entry [] (areas_read areas.entry)) }
{
    let hearing = silent(sent, areas.tested());
    let sum = hearing.sum;
    if let Err(refusal) = hearing.passed {
        return Checked {
            asked: Err(refusal),
            sum,
        };
    }
    let held = held_in(areas.lengths());
    let settings = sent.settings;
    Checked {
        asked: judge(sent.frame, held, settings.fitted, settings.release),
        sum,
    }
}

// The second half: checks again, by the same rules, and does it, with the reply.
#[tactic(auto, using(crate::proofs::Checking::acted_short))]
pub fn act(sent: Sent<'_>, areas: &mut Areas<'_, '_>, reply: &mut [u8]) -> Answered
    ensures acts { Acts (call_in sent.entry reply.old (areas_in areas.old)) (given_by result) (areas_in areas.new) reply.new }
    ensures same_lent { SameLent areas.new areas.old }
{
    let kept = areas.kept;
    if reply.len() < 1024 {
        return Answered {
            outcome: Err(Refusal::ReplyArea),
            length: 0,
            kept,
            sum: None,
        };
    }
    let checked = check(sent, areas.read());
    let sum = checked.sum;
    match checked.asked {
        Err(refusal) => refuse(reply, sent.settings.station, refusal, kept, sum),
        Ok(request) => {
            let order = Order {
                message: request.message,
                start: request.start,
                count: request.count,
                held: held_in(areas.read().lengths()),
            };
            let done = perform(order, sent, areas, reply);
            areas.kept = done.kept;
            accept(done, sum)
        }
    }
}

// The answer to a frame, check and act in one: any bytes, any areas, any lengths.
pub fn answer(sent: Sent<'_>, areas: &mut Areas<'_, '_>, reply: &mut [u8]) -> Answered
    ensures answers { Answers (call_in sent.entry reply.old (areas_in areas.old)) (given_by result) (areas_in areas.new) reply.new }
    ensures same_lent { SameLent areas.new areas.old }
{
    act(sent, areas, reply)
}
