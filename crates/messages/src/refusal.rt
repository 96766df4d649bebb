ghost use Rattle.std.specs.Prelude.{◌≡◌};
ghost use Rattle.messages.specs.Refusal.{refusal_number, number_by};

// Why a frame or a step back is refused, in the order of the numbers (document 01, "Refusal numbers"; document 02, a: 10 and 108; b: 11; f: 12; l: 13).
#[derive(Clone, Copy, Debug, PartialEq, Eq)]
pub enum Refusal {
    ReplyArea,
    PointsArea,
    ColumnsArea,
    JournalArea,
    AxisRecords,
    Shape,
    WrongSum,
    OtherStation,
    NothingToStepBack,
    VariableAreas,
    KeptCount,
    SumSwitchedOff,
    Release,
    UnknownMessage,
    NotDigits,
    ContentLength,
    ProgramNumber,
    CountZero,
    NotHeld,
    AxisPattern,
    ChangeType,
}

// A refusal's number, as C and an error reply have it: 1 to 13, then 101 on. Worked out of its place, since the archive is to have no table of numbers.
impl From<Refusal> for u16 {
    ghost from_gives = { λ refusal number. number ≡ refusal_number refusal };

    fn from(refusal: Refusal) -> u16 {
        let place = refusal as u16;
        if place < 13 { place + 1 } else { place + 88 }
    }
}

// The number of a call that answers nothing else: 0 where it is accepted.
pub fn number_of(outcome: Result<(), Refusal>) -> u16
    ensures { result ≡ number_by outcome }
{
    match outcome {
        Ok(()) => 0,
        Err(refusal) => refusal.into(),
    }
}
