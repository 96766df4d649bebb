// One byte for each pair of digits, and back (document 01, "Each message", 24EH and 210H; document 02, a).
#![tactic(auto)]

ghost use Rattle.std.specs.Prelude.{◌≡◌, true, ◌+◌, ◌*◌, ◌≤◌, length};
ghost use Rattle.digits.specs.Digits.{all_digits};
ghost use Rattle.digits.specs.Laid.{laid};
ghost use Rattle.pairs.specs.Pairs.{bytes_in, digits_in};

// One byte for each pair of digits, at the front of an area.
fn put_pairs(area: &mut [u8], digits: &[u8], many: usize)
    requires { (length digits.now ≡ 2 * many) × (many ≤ length area.old) × (all_digits digits.now ≡ true) }
    ensures { area.new ≡ laid area.old 0 (bytes_in digits.now) }
{
    for pair in 0..many {
        let high = digits::worth(digits[2 * pair]);
        let low = digits::worth(digits[2 * pair + 1]);
        area[pair] = high * 16 + low;
    }
}

// One byte for each pair of digits, from a place on: the part of the area from there is lent on.
pub fn set_bytes(area: &mut [u8], at: usize, digits: &[u8], many: usize)
    requires { (length digits.now ≡ 2 * many) × (at + many ≤ length area.old) × (all_digits digits.now ≡ true) }
    ensures { area.new ≡ laid area.old at (bytes_in digits.now) }
{
    put_pairs(&mut area[at..], digits, many);
}

// Two digits for each byte, laid into a reply from a place on.
pub fn put_digits(reply: &mut [u8], at: usize, bytes: &[u8])
    requires { at + 2 * length bytes.now ≤ length reply.old }
    ensures { reply.new ≡ laid reply.old at (digits_in bytes.now) }
{
    for (i, b) in bytes.iter().enumerate() {
        digits::put_number(reply, at + 2 * i, 2, u64::from(*b));
    }
}
