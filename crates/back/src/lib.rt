// The step back (document 01, "Journal" and "Refusal numbers"; document 02, a and b).
#![tactic(auto)]

ghost use Rattle.std.specs.Prelude.{◌≡◌, cond, eqb, length};
ghost use Rattle.kinds.specs.Kinds.{points_tag, Sound, points_of, columns_of, integers_of, flags_of, size_of};
ghost use Rattle.points.specs.Point.{effective_in};
ghost use Rattle.journal.specs.Journal.{puts, entry_for};
ghost use Rattle.journal.specs.Laws.{Good};
ghost use Rattle.calls.specs.Calls.{put_in};
ghost use Rattle.calls.specs.Lent.{areas_in, SameLent};
ghost use Rattle.messages.specs.Refusal.{number_by};
ghost use Rattle.back.specs.Back.{StepsBack, backed};

use calls::Areas;
use journal::{find_last, remove, restore};
use kinds::{Held, Kind, Run, held_in};
use messages::refusal::Refusal;
use refusals::back_refusal;
use slots::count_run;
use std::mem::take;

// An entry's bytes put back into the slots, where it is of points. The count of effective points: without those that the entry names, and with them as
// they are then; an entry of another kind names none.
fn put_points_back(
    points: &mut [u8],
    held: Held,
    tag: u8,
    start: usize,
    old: &[u8],
    effective: usize,
) -> usize
    requires sound { Sound held × Good held (entry_for tag start old.now) × (length points.old ≡ size_of (points_of held)) }
    requires effective_value { effective ≡ effective_in held.points points.old }
    ensures points_after { points.new ≡ puts (points_of held) (entry_for tag start old.now) points.old }
    ensures value { result ≡ cond (eqb tag points_tag) (effective_in held.points points.new) effective }
{
    let kind = held.kind(tag);
    let count = old.len() / kind.unit;
    let run = Run { kind, start, count };
    let before = count_run(points, run);
    restore(points, held.kind(Kind::POINTS), tag, start, old);
    let after = count_run(points, run);
    let others = effective - before;
    others + after
}

// An entry's bytes put back into the area of its kind, and the count of effective points then.
fn put_back(areas: &mut Areas<'_, '_>, held: Held, tag: u8, start: usize, old: &[u8])
    requires sound { Sound held × Good held (entry_for tag start old.now) }
    requires points_len { (length areas.old.points.now ≡ size_of (points_of held)) × (length areas.old.columns.now ≡ size_of columns_of)
        × (length areas.old.integers.now ≡ size_of (integers_of held)) × (length areas.old.flags.now ≡ size_of (flags_of held)) }
    requires effective_value { areas.old.kept.effective ≡ effective_in held.points areas.old.points.now }
    ensures areas_after { areas_in areas.new ≡ put_in held (entry_for tag start old.now) (areas_in areas.old) }
    ensures same_lent { SameLent areas.new areas.old }
{
    let effective = areas.kept.effective;
    areas.kept.effective = put_points_back(areas.points, held, tag, start, old, effective);
    restore(areas.columns, held.kind(Kind::COLUMNS), tag, start, old);
    restore(areas.integers, held.kind(Kind::INTEGERS), tag, start, old);
    restore(areas.flags, held.kind(Kind::FLAGS), tag, start, old);
}

// The local call from the service panel: the last entry's bytes go back. Any areas, any lengths.
pub fn step_back(areas: &mut Areas<'_, '_>) -> Result<(), Refusal>
    ensures steps_back { StepsBack (areas_in areas.old) (backed (number_by result) areas.new.kept) (areas_in areas.new) }
    ensures same_lent { SameLent areas.new areas.old }
{
    let read = areas.read();
    back_refusal(read.tested())?;
    let held = held_in(read.lengths());
    let used = areas.kept.used;
    let journal = take(&mut areas.journal);
    let last = find_last(journal, used, held);
    let at = last.at;
    put_back(areas, held, last.tag, last.start, &journal[at + 5..used]);
    remove(journal, at);
    areas.journal = journal;
    areas.kept.used = at;
    Ok(())
}
