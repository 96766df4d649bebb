// The link with the axis records as the motion board lends them, one run of records (document 01, "The areas").
#![tactic(auto)]

ghost use Rattle.axes.specs.Run.{lent_axes};
ghost use Rattle.calls.specs.Calls.{call_of};
ghost use Rattle.calls.specs.Lent.{areas_in, SameLent};
ghost use Rattle.link.specs.Contract.{given_by, Answers};

use axes::{AxisRecord, axes_of};
use calls::{Areas, Sent, Settings};
use link::{Answered, answer};

// The answer to a frame, with any count of axis records.
pub fn answer_lent(
    frame: &[u8],
    areas: &mut Areas<'_, '_>,
    records: &[AxisRecord],
    settings: Settings,
    reply: &mut [u8],
) -> Answered
    ensures answers { Answers (call_of frame.now (lent_axes records.now) settings reply.old (areas_in areas.old))
        (given_by result) (areas_in areas.new) reply.new }
    ensures same_lent { SameLent areas.new areas.old }
{
    let sent = Sent {
        frame,
        axes: axes_of(records),
        settings,
    };
    answer(sent, areas, reply)
}
