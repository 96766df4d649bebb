// The journal: entries in a lent area, adding one, stepping back (document 01, "Journal"; document 02, a).
#![tactic(auto)]

ghost use Rattle.std.specs.Prelude.{MatchOption, ◌≡◌, true, ◌∷◌, ◌++◌, ◌+◌, ◌-◌, ◌≤◌, ◌<◌, length, take, drop, replicate};
ghost use Rattle.areas.specs.Bytes.{two_of};
ghost use Rattle.kinds.specs.Kinds.{Sound, size_of};
ghost use Rattle.digits.specs.Laid.{laid};
ghost use Rattle.journal.specs.Journal.{encode, encodes, entry_fits, front_of, whole, entries_in, kept, added, others, puts, entry_for};
ghost use Rattle.journal.specs.Laws.{Holds, Good, Stands};

use areas::bytes::{put_two, two_at};
use areas::runs::{move_run, put_run};
use kinds::{Held, Kind};

// So many old bytes from a start number on make a well-formed entry of a kind.
#[tactic(auto, unfolding(crate::specs::Journal::entry_fits))]
fn fits(k: Kind, start: usize, size: usize) -> bool
    requires { (0 < k.unit) × (start < 65536) × (size < 65536) × (k.first + k.held ≤ 65536) }
    ensures { result ≡ entry_fits k start size }
{
    let count = size / k.unit;
    size % k.unit == 0 && 1 <= count && count <= k.most && k.has(start, count)
}

// How long the entry at the front is, where a whole well-formed one stands there.
#[tactic(auto, unfolding(crate::specs::Journal::front_of))]
fn front(bytes: &[u8], held: Held) -> Option<usize>
    requires { Sound held }
    ensures { MatchOption result (front_of held bytes.now ≡ 0) (λ n. (0 < n) × (n ≡ front_of held bytes.now)) }
{
    if bytes.len() < 5 {
        return None;
    }
    let length = usize::from(two_at(bytes, 1));
    let start = usize::from(two_at(bytes, 3));
    if 2 <= length && length + 3 <= bytes.len() && fits(held.kind(bytes[0]), start, length - 2) {
        Some(length + 3)
    } else {
        None
    }
}

// Whether bytes are whole well-formed entries.
pub fn is_whole(bytes: &[u8], held: Held) -> bool
    requires { Sound held }
    ensures { result ≡ whole held 0 bytes.now }
{
    let mut rest = bytes;
    while let Some(size) = front(rest, held) {
        rest = &rest[size..];
    }
    rest.is_empty()
}

// How long the entry at the front of whole entries is: its own length says it, and it isn't tested again.
fn entry_length(bytes: &[u8], held: Held) -> usize
    requires { (0 < length bytes.now) × (whole held 0 bytes.now ≡ true) }
    ensures { result ≡ front_of held bytes.now }
{
    usize::from(two_at(bytes, 1)) + 3
}

// How many bytes of whole entries go from the front, so that at least so many do, and no entry more.
fn cut(bytes: &[u8], over: usize, held: Held) -> usize
    requires { Sound held × (over ≤ length bytes.now) × (whole held 0 bytes.now ≡ true) }
    ensures { (result ≤ length bytes.now) × (over ≤ result)
        × (drop result bytes.now ≡ encodes (kept (length bytes.now - over) (entries_in held 0 bytes.now))) }
{
    // counted by hand: entries differ in length and the place is asked for; a slice that shrinks would have to be measured for it
    let mut at = 0;
    while at < over {
        at += entry_length(&bytes[at..], held);
    }
    at
}

// How many bytes too many `used` and `size` bytes are in an area of `room` bytes.
fn over_by(used: usize, size: usize, room: usize) -> usize
    requires { (used ≤ room) × (size ≤ room) × (room ≤ 65536) }
    ensures { result ≡ used + size - room }
{
    (used + size).saturating_sub(room)
}

// The five bytes before an entry's old bytes: tag, length of what follows, start number.
fn put_head(journal: &mut [u8], at: usize, tag: u8, many: usize, start: usize)
    requires { (at + 5 ≤ length journal.old) × (many < 65536) × (start < 65536) }
    ensures { journal.new ≡ laid journal.old at (tag ∷ (two_of many ++ two_of start)) }
{
    journal[at] = tag;
    put_two(journal, at + 1, many as u16);
    put_two(journal, at + 3, start as u16);
}

// An entry laid at a place, and 00 from its end to the end of the area.
fn put_entry(journal: &mut [u8], at: usize, tag: u8, start: usize, old: &[u8])
    requires { (at + (5 + length old.now) ≤ length journal.old) × (start < 65536) × (2 + length old.now < 65536) }
    ensures { journal.new ≡ take at journal.old
        ++ (encode (entry_for tag start old.now)
        ++ replicate (length journal.old - (at + (5 + length old.now))) 0) }
{
    put_head(journal, at, tag, old.len() + 2, start);
    put_run(journal, at + 5, old);
    journal[at + 5 + old.len()..].fill(0);
}

// Adds an entry: the oldest are dropped, no more than needed, until it fits. The new used length.
pub fn add(journal: &mut [u8], used: usize, tag: u8, start: usize, old: &[u8], held: Held) -> usize
    requires sound { Sound held × (length journal.old ≤ 65536) × (used ≤ length journal.old) × (5 + length old.now ≤ length journal.old) }
    requires journal_value { whole held 0 (take used journal.old) ≡ true }
    requires good { Good held (entry_for tag start old.now) }
    ensures { Holds (length journal.old)
        (added (length journal.old) (entries_in held 0 (take used journal.old)) (entry_for tag start old.now))
        journal.new result }
{
    let size = old.len() + 5;
    let over = over_by(used, size, journal.len());
    let gone = cut(&journal[..used], over, held);
    let left = used - gone;
    move_run(journal, gone, left);
    put_entry(journal, left, tag, start, old);
    left + size
}

// Where the last entry starts.
fn last_at(bytes: &[u8], held: Held) -> usize
    requires { Sound held × (0 < length bytes.now) × (whole held 0 bytes.now ≡ true) }
    ensures { result ≡ length (encodes (others (entries_in held 0 bytes.now))) }
{
    // counted by hand, as in `cut`
    let mut at = 0;
    let mut next = entry_length(bytes, held);
    while next < bytes.len() {
        at = next;
        next += entry_length(&bytes[next..], held);
    }
    at
}

// The last entry: its tag, its start number, and where it starts.
#[derive(Clone, Copy, Debug, PartialEq, Eq)]
pub struct Last {
    pub tag: u8,
    pub start: usize,
    pub at: usize,
}

// The last entry of the used part.
pub fn find_last(journal: &[u8], used: usize, held: Held) -> Last
    requires sound { Sound held × (0 < used) × (used ≤ length journal.now) }
    requires journal_value { whole held 0 (take used journal.now) ≡ true }
    ensures { Stands held journal.now used result }
{
    let at = last_at(&journal[..used], held);
    Last {
        tag: journal[at],
        start: usize::from(two_at(journal, at + 3)),
        at,
    }
}

// An entry's old bytes put back into an area of a kind, where the entry is of that kind.
pub fn restore(area: &mut [u8], k: Kind, tag: u8, start: usize, old: &[u8])
    requires area_len { (length area.old ≡ size_of k) × (size_of k < 65536) }
    requires value { tag ≡ k.tag → entry_fits k start (length old.now) ≡ true }
    ensures { area.new ≡ puts k (entry_for tag start old.now) area.old }
{
    if tag == k.tag {
        put_run(area, k.place(start), old);
    }
}

// The entry that starts at a place, removed with all behind it: the rest is 00.
pub fn remove(journal: &mut [u8], at: usize)
    requires { at ≤ length journal.old }
    ensures { journal.new ≡ take at journal.old ++ replicate (length journal.old - at) 0 }
{
    journal[at..].fill(0);
}
