// Finding a frame in the received bytes (document 01, "Finding a frame in the received bytes"; document 02, c).
#![tactic(auto)]

ghost use Rattle.std.specs.Prelude.{◌≡◌, ◌==◌, ◌+◌, ◌-◌, ◌≤◌, ◌<◌, length, take, drop, ltb, position};
ghost use Rattle.finder.specs.Find.{place_of, pair_first, pair_of, begins_test_call, skipped, skip_of, find_in, part_of};

use frames::checks::has_test_id;

// What the received bytes hold, and how many of them are used up or dropped.
#[derive(Clone, Copy, Debug, PartialEq, Eq)]
pub enum Found {
    Frame { start: usize, used: usize },
    Nothing { drop: usize },
    Wait { drop: usize },
    TooLong { drop: usize },
}

// The bytes of a block: four of the processor's vectors of 16, and one branch behind them.
const BLOCK: usize = 64;

// The bytes behind a skipped '!' that are looked at one by one: the next '!' is often near, and a block costs more than they do.
const NEAR: usize = 20;

// Whether a byte stands in a block: to the end in any case, so that the compiler looks at many bytes at once.
fn has(block: &[u8], b: u8) -> bool
    ensures { result ≡ ltb (place_of b block.now) (length block.now) }
{
    let mut any = false;
    for x in block {
        any |= *x == b;
    }
    any
}

// How many bytes are passed by whole blocks in which a byte doesn't stand: a block costs about as much as four bytes one by one.
fn pass_blocks(s: &[u8], b: u8) -> usize
    ensures { (result ≤ length s.now) × (result + place_of b (drop result s.now) ≡ place_of b s.now) }
{
    let mut passed = 0;
    for block in s.chunks_exact(BLOCK) {
        if has(block, b) {
            break;
        }
        passed += BLOCK;
    }
    passed
}

// Where a byte first stands, looked for byte by byte.
fn by_byte(s: &[u8], b: u8) -> Option<usize>
    ensures { result ≡ position (λ x. x == b) s.now }
{
    s.iter().position(|x| *x == b)
}

// Where a byte first stands, or the length: byte by byte only from the block on in which it stands, or behind the last one.
fn place(s: &[u8], b: u8) -> usize
    ensures { result ≡ place_of b s.now }
{
    let passed = pass_blocks(s, b);
    let rest = &s[passed..];
    passed + by_byte(rest, b).unwrap_or(rest.len())
}

// CR LF stands at a place.
fn pair_at(s: &[u8], i: usize) -> bool
    requires { i < length s.now }
    ensures { result ≡ pair_first (drop i s.now) }
{
    matches!(&s[i..], [b'\r', b'\n', ..])
}

// Where CR LF first stands, or the length: from CR to CR, since a CR is looked for by blocks.
fn pair(s: &[u8]) -> usize
    ensures { result ≡ pair_of s.now }
{
    // no `for`: from one CR to the next is another step each time
    let mut at = place(s, b'\r');
    while at < s.len() && !pair_at(s, at) {
        at += 1;
        at += place(&s[at..], b'\r');
    }
    at
}

// A test call begins so: '200' behind two bytes that aren't CR LF.
fn begins_test_call(bytes: &[u8]) -> bool
    ensures { result ≡ begins_test_call bytes.now }
{
    has_test_id(bytes) && !pair_at(bytes, 1)
}

// Its '!' is skipped: 20 bytes are there, and CR LF aren't the last two.
fn is_skipped(bytes: &[u8]) -> bool
    ensures { result ≡ skipped bytes.now }
{
    bytes.len() >= 20 && begins_test_call(bytes) && !pair_at(bytes, 18)
}

// Where a byte first stands, or the length: the first bytes one by one, then by blocks.
fn near(s: &[u8], b: u8) -> usize
    ensures { result ≡ place_of b s.now }
{
    if s.len() < NEAR {
        return place(s, b);
    }
    // so many bytes that the compiler knows the number, and writes the look out for each
    match by_byte(&s[..NEAR], b) {
        Some(i) => i,
        None => NEAR + place(&s[NEAR..], b),
    }
}

// Where a '!' first stands that isn't skipped, or the length: from '!' to '!'.
fn first(s: &[u8]) -> usize
    ensures { result ≡ skip_of s.now }
{
    // no `for`, as in `pair`
    let mut bang = place(s, b'!');
    while bang < s.len() && is_skipped(&s[bang..]) {
        bang += 1;
        bang += near(&s[bang..], b'!');
    }
    bang
}

// The first 1,023 bytes at most.
fn window(s: &[u8]) -> &[u8]
    ensures { result.now ≡ take 1023 s.now }
{
    &s[..s.len().min(1023)]
}

// A frame, nothing, wait or too long: any bytes, any length.
pub fn find(received: &[u8]) -> Found
    ensures { result ≡ find_in received.now }
{
    let start = first(received);
    if start >= received.len() {
        return Found::Nothing {
            drop: received.len(),
        };
    }
    let bytes = &received[start..];
    if begins_test_call(bytes) {
        if bytes.len() < 20 {
            return Found::Wait { drop: start };
        }
        return Found::Frame {
            start,
            used: start + 20,
        };
    }
    let seen = window(bytes);
    let n = pair(seen);
    if n < seen.len() {
        return Found::Frame {
            start,
            used: start + (n + 2),
        };
    }
    if seen.len() == 1023 {
        return Found::TooLong { drop: start + 1 };
    }
    Found::Wait { drop: start }
}

// The bytes from one place up to another, as many of them as there are.
fn part(s: &[u8], start: usize, used: usize) -> &[u8]
    ensures { result.now ≡ take (used - start) (drop start s.now) }
{
    let rest = s.get(start..).unwrap_or(&s[..0]);
    rest.get(..used.saturating_sub(start)).unwrap_or(rest)
}

// The frame itself, as the part of the received bytes where it was found; empty with no frame.
pub fn frame_in(received: &[u8], found: Found) -> &[u8]
    ensures { result.now ≡ part_of found received.now }
{
    match found {
        Found::Frame { start, used } => part(received, start, used),
        Found::Nothing { .. } | Found::Wait { .. } | Found::TooLong { .. } => &received[..0],
    }
}
