ghost use Rattle.std.specs.Prelude.{◌≡◌, ◌≤◌, length};
ghost use Rattle.frames.specs.Frame.{has_testID, shaped, says_number, sum_true, sum_off, sum_said, station_passes};

use crate::sums::sum;

// What the sum test says of a frame (document 02, f).
#[derive(Debug, Clone, Copy, PartialEq, Eq)]
pub enum Sum {
    True,
    SwitchedOff,
    Wrong,
}

// A test call: its ID is '200'. With fewer than six bytes the ID isn't all there.
pub fn has_test_id(frame: &[u8]) -> bool
    ensures { result ≡ has_testID frame.now }
{
    frame.len() >= 6 && frame[3] == b'2' && frame[4] == b'0' && frame[5] == b'0'
}

// Test 6, passed: '!' first, CR LF last, 10 to 1,023 bytes, a test call of 20.
pub fn is_shaped(frame: &[u8]) -> bool
    ensures { result ≡ shaped frame.now }
{
    let n = frame.len();
    (10..=1023).contains(&n)
        && frame[0] == b'!'
        && frame[n - 2] == b'\r'
        && frame[n - 1] == b'\n'
        && (!has_test_id(frame) || n == 20)
}

// A field's number is this one, with the digits that a release admits.
fn is_number(release: u8, field: &[u8], n: u8) -> bool
    requires { length field.now ≤ 8 }
    ensures { result ≡ says_number release field.now n }
{
    digits::read_field(release, field) == Some(u64::from(n))
}

// The SC is the low byte of the sum before it.
pub fn is_sum_true(release: u8, frame: &[u8]) -> bool
    requires { 10 ≤ length frame.now }
    ensures { result ≡ sum_true release frame.now }
{
    let n = frame.len() - 4;
    is_number(release, &frame[n..n + 2], sum(&frame[..n]))
}

// The SC is '@@'.
pub fn is_sum_off(frame: &[u8]) -> bool
    requires { 10 ≤ length frame.now }
    ensures { result ≡ sum_off frame.now }
{
    let n = frame.len() - 4;
    frame[n] == b'@' && frame[n + 1] == b'@'
}

// The sum test, by which 12 and 7 are given: the SC is true, '@@', or neither.
pub fn test_sum(release: u8, frame: &[u8]) -> Sum
    requires { 10 ≤ length frame.now }
    ensures { result ≡ sum_said release frame.now }
{
    if is_sum_off(frame) {
        Sum::SwitchedOff
    } else if is_sum_true(release, frame) {
        Sum::True
    } else {
        Sum::Wrong
    }
}

// Test 8, passed: the station is digits and is this one.
pub fn is_ours(release: u8, station: u8, frame: &[u8]) -> bool
    requires { 10 ≤ length frame.now }
    ensures { result ≡ station_passes release station frame.now }
{
    is_number(release, &frame[1..3], station)
}
