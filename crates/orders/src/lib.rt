// What a message orders, carried out in the area of its kind (document 01, "Each message"; document 02, a and b).
#![tactic(auto)]

ghost use Rattle.std.specs.Prelude.{◌≡◌, true, ◌≤◌, length};
ghost use Rattle.frames.specs.Frame.{content_in};
ghost use Rattle.kinds.specs.Kinds.{Sound};
ghost use Rattle.table.specs.Table.{fields_of, rest_in, Narrow};
ghost use Rattle.calls.specs.Lent.{sent_in};
ghost use Rattle.refusals.specs.Refusals.{count_fits, journal_fits};
ghost use Rattle.orders.specs.Orders.{writes};
ghost use Rattle.orders.specs.Contract.{kind_in, Ordered, Says, Stores, Within, count_named, count_left};

use axes::records_of;
use calls::{Kept, Sent};
use contents::content;
use heads::{reply_flags, reply_head, reply_run};
use kinds::{Held, Run};
use queries::{reply_axes, reply_count, reply_list, reply_same};
use slots::count_run;
use table::{Action, Message};
use writes::{change, clear, set_flag, write_points};

// What a frame orders of a board that holds so much: a message, with its start number and count.
#[derive(Clone, Copy)]
pub struct Order {
    pub message: Message,
    pub start: usize,
    pub count: usize,
    pub held: Held,
}

impl Order {
    // The run that it names.
    fn run(self) -> Run
        ensures { result ≡ record { kind = kind_in self; start = self.start; count = self.count } }
    {
        Run {
            kind: self.held.kind(self.message.tag),
            start: self.start,
            count: self.count,
        }
    }
}

// What an order that was carried out gives: the reply's length, and what is handed on.
#[derive(Clone, Copy)]
pub struct Done {
    pub length: usize,
    pub kept: Kept,
}

// What follows the fields of a frame's content.
fn rest_of(m: Message, frame: &[u8]) -> &[u8]
    requires { Narrow m × (10 ≤ length frame.now) × (fields_of m ≤ length (content_in frame.now)) }
    ensures { result.now ≡ rest_in m (content_in frame.now) }
{
    let body = content(frame);
    let fields = m.program + m.start + m.count;
    &body[fields..]
}

// What a message has the board say. The reply's length. By what the row does, and no function in the row: each arm hands on other things.
fn say(order: Order, sent: Sent<'_>, area: &[u8], kept: Kept, reply: &mut [u8]) -> usize
    requires { Ordered order sent.frame.now area.now × (1024 ≤ length reply.old) }
    ensures { Says order (sent_in sent.entry reply.old) kept area.now result reply.new }
{
    let m = order.message;
    let start = order.start;
    let count = order.count;
    let station = sent.settings.station;
    let run = order.run();
    let rest = rest_of(m, sent.frame);
    let does = m.does;
    match does {
        Action::SayBack => reply_same(reply, station, m, rest),
        Action::CountPoints => reply_count(reply, station, m, kept.effective),
        Action::ListPoints => {
            let at = run.at();
            reply_list(reply, station, m, &area[at..], start, count)
        }
        Action::ReadRun => reply_run(reply, station, m, run, area),
        Action::AxisStatus => {
            let pattern = digits::number(rest) as u8;
            let shown = pattern & sent.settings.fitted;
            reply_axes(reply, station, m, shown, records_of(sent.axes))
        }
        Action::WritePoints => reply_head(reply, station, m, start, count),
        Action::ClearRun => reply_head(reply, station, m, start, count),
        Action::ChangeRun => reply_head(reply, station, m, start, count),
        Action::ShowFlags => reply_flags(reply, station, m, run, area),
        Action::SetFlag => reply_head(reply, station, m, start, count),
    }
}

// What a message has the board store, with its entry; a query stores nothing. The new used length.
fn store(order: Order, frame: &[u8], area: &mut [u8], journal: &mut [u8], used: usize) -> usize
    requires { Ordered order frame.now area.old × (journal_fits order.held journal.old used ≡ true) }
    ensures { Stores order frame.now area.old area.new journal.old journal.new used result }
{
    let m = order.message;
    let held = order.held;
    let run = order.run();
    let rest = rest_of(m, frame);
    let does = m.does;
    match does {
        Action::SayBack => used,
        Action::CountPoints => used,
        Action::ListPoints => used,
        Action::ReadRun => used,
        Action::AxisStatus => used,
        Action::WritePoints => write_points(area, journal, used, held, run, rest),
        Action::ClearRun => clear(area, journal, used, held, run),
        Action::ChangeRun => change(area, journal, used, held, run, rest),
        Action::ShowFlags => used,
        Action::SetFlag => set_flag(area, journal, used, held, run, rest),
    }
}

// The messages that write.
fn is_write(does: Action) -> bool
    ensures { result ≡ writes does }
{
    matches!(
        does,
        Action::WritePoints | Action::ClearRun | Action::ChangeRun | Action::SetFlag
    )
}

// How many effective slots a write names: those of its run as they stand; a query, or a write of another kind, names none.
fn count_named(order: Order, area: &[u8]) -> usize
    requires { Sound order.held × Within order area.now }
    ensures { result ≡ count_named order area.now }
{
    if !is_write(order.message.does) {
        return 0;
    }
    count_run(area, order.run())
}

// An order carried out: what the message says, then what it stores; the count that is kept is without the slots that were named, and with them as they
// are then.
pub fn carry_out(
    order: Order,
    sent: Sent<'_>,
    area: &mut [u8],
    journal: &mut [u8],
    kept: Kept,
    reply: &mut [u8],
) -> Done
    requires { Ordered order sent.frame.now area.old × (1024 ≤ length reply.old) × (journal_fits order.held journal.old kept.used ≡ true)
        × (count_fits order.message.does area.old kept.effective ≡ true) }
    ensures says { Says order (sent_in sent.entry reply.old) kept area.old result.length reply.new }
    ensures stores { Stores order sent.entry.frame.now area.old area.new
        journal.old journal.new kept.used result.kept.used }
    ensures effective_value { result.kept.effective ≡ count_left order area.new kept.effective }
{
    let length = say(order, sent, area, kept, reply);
    let before = count_named(order, area);
    let used = store(order, sent.frame, area, journal, kept.used);
    let after = count_named(order, area);
    let others = kept.effective - before;
    let effective = others + after;
    Done {
        length,
        kept: Kept { used, effective },
    }
}
