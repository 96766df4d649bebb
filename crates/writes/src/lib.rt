// The writes: a run of one kind is put into its area, and what stood there goes into the journal (document 01, "Each message" and "Journal";
// document 02, a).
#![tactic(auto, unfolding(kinds::specs::Kinds::put))]

ghost use Rattle.std.specs.Prelude.{◌≡◌, true, [], ◌∷◌, ◌*◌, length, replicate};
ghost use Rattle.std.specs.Fn.{FnOnceTakesAtMut, FnOnceReturnsAtMut};
ghost use Rattle.digits.specs.Digits.{all_digits, number_of};
ghost use Rattle.pairs.specs.Pairs.{bytes_in};
ghost use Rattle.points.specs.Point.{fills_of, slots_of};
ghost use Rattle.writes.specs.Writes.{Ready, Entered, Written};

use areas::runs::clear_run;
use journal::add;
use kinds::{Held, Run};
use pairs::set_bytes;
use slots::lay_points;

// What stands in a run goes into the journal as one entry, and then the write puts its bytes there. The new used length.
fn write<F: FnOnce(&mut [u8])>(
    area: &mut [u8],
    journal: &mut [u8],
    used: usize,
    held: Held,
    run: Run,
    put: F,
) -> usize
    requires ready { Ready held run.kind run.start run.count area.old journal.old used }
    requires takes { FnOnceTakesAtMut F.FnOnce put area.old }
    ensures puts { FnOnceReturnsAtMut F.FnOnce put area.old tt area.new }
    ensures journalled { Entered held run.kind run.start run.count area.old journal.old journal.new used result }
{
    let left = add(journal, used, run.kind.tag, run.start, run.part(area), held);
    put(area);
    left
}

// 244H: so many points that digits write. The new used length.
pub fn write_points(
    area: &mut [u8],
    journal: &mut [u8],
    used: usize,
    held: Held,
    run: Run,
    digits: &[u8],
) -> usize
    requires unit_value { (run.kind.unit ≡ 40) × (all_digits digits.now ≡ true) × (fills_of run.count digits.now ≡ true) }
    requires ready { Ready held run.kind run.start run.count area.old journal.old used }
    ensures { Written held run.kind run.start run.count (slots_of run.count digits.now)
        area.old area.new journal.old journal.new used result }
{
    write(area, journal, used, held, run, |area| {
        lay_points(area, run.at(), digits, run.count)
    })
}

// 246H: a run set to zero. The new used length.
pub fn clear(area: &mut [u8], journal: &mut [u8], used: usize, held: Held, run: Run) -> usize
    requires { Ready held run.kind run.start run.count area.old journal.old used }
    ensures { Written held run.kind run.start run.count (replicate (run.count * run.kind.unit) 0)
        area.old area.new journal.old journal.new used result }
{
    write(area, journal, used, held, run, |area| {
        clear_run(area, run.at(), run.size())
    })
}

// 24EH, 24CH, and every message that changes a run: one byte for each pair of digits. The new used length.
pub fn change(
    area: &mut [u8],
    journal: &mut [u8],
    used: usize,
    held: Held,
    run: Run,
    digits: &[u8],
) -> usize
    requires digits_value { (all_digits digits.now ≡ true) × (length digits.now ≡ 2 * (run.count * run.kind.unit)) }
    requires ready { Ready held run.kind run.start run.count area.old journal.old used }
    ensures { Written held run.kind run.start run.count (bytes_in digits.now)
        area.old area.new journal.old journal.new used result }
{
    write(area, journal, used, held, run, |area| {
        set_bytes(area, run.at(), digits, run.size())
    })
}

// 24BH: a run's one flag set to what its change type says. The new used length.
pub fn set_flag(
    area: &mut [u8],
    journal: &mut [u8],
    used: usize,
    held: Held,
    run: Run,
    digits: &[u8],
) -> usize
    requires unit_value { (run.kind.unit ≡ 1) × (all_digits digits.now ≡ true) × (length digits.now ≡ 1) }
    requires ready { Ready held run.kind run.start run.count area.old journal.old used }
    ensures { Written held run.kind run.start run.count (number_of digits.now ∷ [])
        area.old area.new journal.old journal.new used result }
{
    let value = digits::worth(digits[0]);
    write(area, journal, used, held, run, |area| {
        area[run.at()] = value;
    })
}
