ghost use Rattle.std.specs.Prelude.{◌≡◌, ◌+◌, ◌<◌, ◌≤◌, [], ◌∷◌, length, take, drop};
ghost use Rattle.digits.specs.Laid.{laid};
ghost use Rattle.frames.specs.Frame.{reply_of, error_of, three_of, normal};

use crate::sums::sum;

fn put_byte(area: &mut [u8], at: usize, b: u8)
    requires { at < length area.old }
    ensures { area.new ≡ laid area.old at (b ∷ []) }
{
    area[at] = b;
}

fn put_pair(area: &mut [u8], at: usize, a: u8, b: u8)
    requires { at + 2 ≤ length area.old }
    ensures { area.new ≡ laid area.old at (a ∷ b ∷ []) }
{
    area[at..at + 2].copy_from_slice(&[a, b]);
}

// The three digits of a number as the refusal table prints it.
fn put_three(area: &mut [u8], at: usize, number: u16)
    requires { at + 3 ≤ length area.old }
    ensures { area.new ≡ laid area.old at (three_of number) }
{
    let digit = |n: u16| digits::byte((n % 10) as u8);
    area[at..at + 3].copy_from_slice(&[digit(number / 100), digit(number / 10), digit(number)]);
}

// Header and station are laid before what stands from byte 3 on, so many bytes, and SC, CR and LF behind it.
fn close(reply: &mut [u8], header: u8, station: u8, many: usize) -> usize
    requires { many + 7 ≤ length reply.old }
    ensures value { result ≡ many + 7 }
    ensures reply_after { reply.new ≡ laid reply.old 0 (reply_of header station (take many (drop 3 reply.old))) }
{
    let end = many + 3;
    put_byte(reply, 0, header);
    digits::put_number(reply, 1, 2, u64::from(station));
    let sc = sum(&reply[..end]);
    digits::put_number(reply, end, 2, u64::from(sc));
    put_pair(reply, end + 2, b'\r', b'\n');
    end + 4
}

// A normal reply.
pub fn close_reply(reply: &mut [u8], station: u8, many: usize) -> usize
    requires { many + 7 ≤ length reply.old }
    ensures value { result ≡ many + 7 }
    ensures reply_after { reply.new ≡ laid reply.old 0 (reply_of normal station (take many (drop 3 reply.old))) }
{
    close(reply, b'#', station, many)
}

// The ten bytes of an error reply. Of any number, as its table prints it: a refusal would ask more of a caller.
pub fn error_reply(reply: &mut [u8], station: u8, number: u16) -> usize
    requires { 10 ≤ length reply.old }
    ensures value { result ≡ 10 }
    ensures reply_after { reply.new ≡ laid reply.old 0 (error_of station number) }
{
    put_three(reply, 3, number);
    close(reply, b'&', station, 3)
}
