// A reply's head, alone for a write, and before a run's digits (document 01, "Each message"; document 02, a).
#![tactic(auto)]

ghost use Rattle.std.specs.Prelude.{◌≡◌, ◌++◌, ◌+◌, ◌*◌, ◌≤◌, ◌<◌, length};
ghost use Rattle.digits.specs.Digits.{digits_of};
ghost use Rattle.digits.specs.Laid.{laid};
ghost use Rattle.kinds.specs.Kinds.{size_of, place_of};
ghost use Rattle.table.specs.Table.{Narrow};
ghost use Rattle.heads.specs.Heads.{head_of, run_text, flags_text};
ghost use Rattle.heads.specs.Laws.{Replied};

use digits::put_number;
use flags::put_flags;
use frames::replies::close_reply;
use kinds::Run;
use pairs::put_digits;
use table::Message;

// Program number 00, start and count, each as long as the message has it; where they end.
fn put_fields(reply: &mut [u8], m: Message, start: usize, count: usize) -> usize
    requires { Narrow m × (18 ≤ length reply.old) }
    ensures value { result ≡ 6 + (m.program + (m.start + m.count)) }
    ensures reply_after { reply.new ≡ laid reply.old 6
        (digits_of m.program 0 ++ (digits_of m.start start ++ digits_of m.count count)) }
{
    put_number(reply, 6, m.program, 0);
    put_number(reply, 6 + m.program, m.start, start as u64);
    put_number(reply, 6 + m.program + m.start, m.count, count as u64);
    6 + m.program + m.start + m.count
}

// The ID and, where the reply repeats them, the fields; where they end.
fn put_head(reply: &mut [u8], m: Message, start: usize, count: usize) -> usize
    requires { Narrow m × (18 ≤ length reply.old) }
    ensures value { (result ≡ 3 + length (head_of m start count)) × (result ≤ 18) }
    ensures reply_after { reply.new ≡ laid reply.old 3 (head_of m start count) }
{
    put_number(reply, 3, 3, u64::from(m.id));
    if m.repeats {
        put_fields(reply, m, start, count)
    } else {
        6
    }
}

// What a write says: the ID, and the fields where they are repeated.
pub fn reply_head(reply: &mut [u8], station: u8, m: Message, start: usize, count: usize) -> usize
    requires { Narrow m × (1024 ≤ length reply.old) }
    ensures { Replied reply.old reply.new result station (head_of m start count) }
{
    let end = put_head(reply, m, start, count);
    close_reply(reply, station, end - 3)
}

// 210H, 20EH, and every message that reads a run: the head, then two digits for each byte.
pub fn reply_run(reply: &mut [u8], station: u8, m: Message, run: Run, area: &[u8]) -> usize
    requires narrow { Narrow m × (1024 ≤ length reply.old) × (run.kind.first ≤ run.start) × (2 * (run.count * run.kind.unit) ≤ 1000) }
    requires area_len { (length area.now ≡ size_of run.kind) × (place_of run.kind run.start + run.count * run.kind.unit ≤ size_of run.kind)
        × (size_of run.kind < 65536) }
    ensures { Replied reply.old reply.new result station (run_text m run.kind run.start run.count area.now) }
{
    let end = put_head(reply, m, run.start, run.count);
    let bytes = run.part(area);
    put_digits(reply, end, bytes);
    close_reply(reply, station, end - 3 + 2 * bytes.len())
}

// 20DH: the head, then two digits for each eight flags begun.
// Not one function with `reply_run` over a closure: its contract would have to say what is laid and how many digits, and each would lose two lines.
pub fn reply_flags(reply: &mut [u8], station: u8, m: Message, run: Run, area: &[u8]) -> usize
    requires narrow { Narrow m × (1024 ≤ length reply.old) × (run.kind.first ≤ run.start) × (run.count * run.kind.unit ≤ 1000) }
    requires area_len { (length area.now ≡ size_of run.kind) × (place_of run.kind run.start + run.count * run.kind.unit ≤ size_of run.kind)
        × (size_of run.kind < 65536) }
    ensures { Replied reply.old reply.new result station (flags_text m run.kind run.start run.count area.now) }
{
    let end = put_head(reply, m, run.start, run.count);
    let flags = run.part(area);
    put_flags(reply, end, flags);
    close_reply(reply, station, end - 3 + 2 * flags.len().div_ceil(8))
}
