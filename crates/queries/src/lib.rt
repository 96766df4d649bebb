// The replies to 200H, 208H, 209H and 212H, laid into the lent reply area (document 01, "Each message"; document 02, b).
#![tactic(auto)]

ghost use Rattle.std.specs.Prelude.{◌≡◌, ◌+◌, ◌*◌, ◌≤◌, length};
ghost use Rattle.digits.specs.Laid.{laid};
ghost use Rattle.points.specs.Axes.{axes_of};
ghost use Rattle.heads.specs.Laws.{Replied};
ghost use Rattle.queries.specs.Replies.{same_text, count_text, list_text, record_digits, records_digits, axes_text};

use areas::runs::put_run;
use axes::AxisRecord;
use digits::put_number;
use frames::replies::close_reply;
use listing::put_listings;
use points::patterns::{Axes, ones};
use table::Message;

// 200H: the content said back.
pub fn reply_same(reply: &mut [u8], station: u8, m: Message, content: &[u8]) -> usize
    requires { (1024 ≤ length reply.old) × (length content.now ≡ 10) }
    ensures { Replied reply.old reply.new result station (same_text m content.now) }
{
    put_number(reply, 3, 3, u64::from(m.id));
    put_run(reply, 6, content);
    close_reply(reply, station, 13)
}

// 208H: the count that is kept.
pub fn reply_count(reply: &mut [u8], station: u8, m: Message, effective: usize) -> usize
    requires { 1024 ≤ length reply.old }
    ensures { Replied reply.old reply.new result station (count_text m effective) }
{
    put_number(reply, 3, 3, u64::from(m.id));
    put_number(reply, 6, 3, effective as u64);
    close_reply(reply, station, 6)
}

// One axis: sixteen digits.
fn put_record(reply: &mut [u8], at: usize, r: AxisRecord)
    requires { at + 16 ≤ length reply.old }
    ensures { reply.new ≡ laid reply.old at (record_digits r) }
{
    put_number(reply, at, 2, u64::from(r.status));
    put_number(reply, at + 2, 1, u64::from(r.sensor));
    put_number(reply, at + 3, 3, u64::from(r.error));
    put_number(reply, at + 6, 2, u64::from(r.encoder));
    put_number(reply, at + 8, 8, u64::from(r.position.bits()));
}

// Sixteen digits for each axis of a pattern, lowest first.
#[tactic(auto, using(points::proofs::Ones::first_axis))]
fn put_records(reply: &mut [u8], at: usize, pattern: u8, records: [AxisRecord; 8])
    requires { at + 16 * length (axes_of pattern) ≤ length reply.old }
    ensures { reply.new ≡ laid reply.old at (records_digits (axes_of pattern) records) }
{
    let mut to = at;
    for axis in Axes::of(pattern) {
        put_record(reply, to, records[axis]);
        to += 16;
    }
}

// 212H, of a pattern without unfitted axes.
#[tactic(auto, using(points::proofs::Ones::at_most))]
pub fn reply_axes(
    reply: &mut [u8],
    station: u8,
    m: Message,
    pattern: u8,
    records: [AxisRecord; 8],
) -> usize
    requires { 1024 ≤ length reply.old }
    ensures { Replied reply.old reply.new result station (axes_text m pattern records) }
{
    put_number(reply, 3, 3, u64::from(m.id));
    put_number(reply, 6, 2, u64::from(pattern));
    put_records(reply, 8, pattern, records);
    close_reply(reply, station, 5 + 16 * ones(pattern))
}

// 209H: the effective points among so many slots from a number on, as many leading ones as keep the reply within 1,024 bytes.
pub fn reply_list(
    reply: &mut [u8],
    station: u8,
    m: Message,
    slots: &[u8],
    start: usize,
    count: usize,
) -> usize
    requires { (1024 ≤ length reply.old) × (start + count ≤ 1501) × (40 * count ≤ length slots.now) }
    ensures { Replied reply.old reply.new result station (list_text m start count slots.now) }
{
    put_number(reply, 3, 3, u64::from(m.id));
    let list = put_listings(reply, slots, start, count);
    put_number(reply, 6, 3, list.many as u64);
    close_reply(reply, station, 6 + list.digits)
}
