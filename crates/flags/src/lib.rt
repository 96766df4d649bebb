// Flags as a reply shows them, eight to a byte (document 02, request a; section 4-3-8 of source document 000).
#![tactic(auto)]

ghost use Rattle.std.specs.Prelude.{◌≡◌, ◌+◌, ◌*◌, ◌≤◌, length};
ghost use Rattle.digits.specs.Laid.{laid};
ghost use Rattle.pairs.specs.Pairs.{digits_in};
ghost use Rattle.flags.specs.Flags.{bits_of, eights};

use digits::put_number;

// At most eight flags as the bits of a byte, the first in bit 0.
fn bits(flags: &[u8]) -> u8
    requires { length flags.now ≤ 8 }
    ensures { result ≡ bits_of 8 flags.now }
{
    let mut byte = 0;
    for i in (0..flags.len()).rev() {
        byte = byte * 2 + u8::from(flags[i] != 0);
    }
    byte
}

// Two digits for each eight flags begun, laid into a reply from a place on. Parts of just 8 flags: by `chunks(8)` 256 flags took twice as long.
pub fn put_flags(reply: &mut [u8], at: usize, flags: &[u8])
    requires { at + 2 * length (eights 0 flags.now) ≤ length reply.old }
    ensures { reply.new ≡ laid reply.old at (digits_in (eights 0 flags.now)) }
{
    let mut from = 0;
    let mut to = at;
    while flags.len() - from > 8 {
        put_number(reply, to, 2, u64::from(bits(&flags[from..from + 8])));
        from += 8;
        to += 2;
    }
    if from < flags.len() {
        put_number(reply, to, 2, u64::from(bits(&flags[from..])));
    }
}
