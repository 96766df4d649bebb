// What is handed over with a call, what is handed on from call to call (document 01, "The areas"), and what an answer tells of the sum (document 02, f).
#![tactic(auto)]

ghost use Rattle.std.specs.Prelude.{◌≡◌};
ghost use Rattle.calls.specs.Calls.{sum_code, lengths_of};
ghost use Rattle.calls.specs.Lent.{areas_in, areas_read, lengths_tested, TestedOf};

use axes::Axes;
use frames::checks::Sum;
use kinds::{Firsts, Lengths};

// A frame's settings, the cabinet release (document 02, l) and whether '@@' is allowed (f) among them; the first numbers of variables, which a step back
// needs too, are kinds::Firsts. The release is the host's byte, and no enum: 13 refuses one that is neither 1 nor 2.
#[derive(Clone, Copy)]
pub struct Settings {
    pub station: u8,
    pub release: u8,
    pub unchecked: bool,
    pub fitted: u8,
}

// A frame, any bytes, with what is handed over beside it, but for the areas and the reply's area.
#[derive(Clone, Copy)]
pub struct Sent<'a> {
    pub frame: &'a [u8],
    pub axes: Axes,
    pub settings: Settings,
}

// What is handed on from call to call: the journal's used length, and the number of effective points (document 02, b).
#[derive(Clone, Copy)]
pub struct Kept {
    pub used: usize,
    pub effective: usize,
}

// The five areas that a host lends, of any lengths, with the numbers that are kept beside them and the first numbers of variables. The journal has a
// lifetime of its own: a step back takes it out while its last entry goes back into the others.
#[derive(Drop)]
pub struct Areas<'a, 'j> {
    pub points: &'a mut [u8],
    pub columns: &'a mut [u8],
    pub integers: &'a mut [u8],
    pub flags: &'a mut [u8],
    pub journal: &'j mut [u8],
    pub kept: Kept,
    pub firsts: Firsts,
}

// The same areas where they are only read.
#[derive(Clone, Copy)]
pub struct AreasRead<'a> {
    pub points: &'a [u8],
    pub columns: &'a [u8],
    pub integers: &'a [u8],
    pub flags: &'a [u8],
    pub journal: &'a [u8],
    pub kept: Kept,
    pub firsts: Firsts,
}

// What the tests look at: the bytes of points and journal, of the other areas the lengths alone, and what is kept. So no area of columns, integers or flags
// need be lent to ask for a refusal.
#[derive(Clone, Copy)]
pub struct AreasTested<'a> {
    pub points: &'a [u8],
    pub columns: usize,
    pub integers: usize,
    pub flags: usize,
    pub journal: &'a [u8],
    pub kept: Kept,
    pub firsts: Firsts,
}

impl<'a, 'j> Areas<'a, 'j> {
    pub fn read(&self) -> AreasRead<'_>
        ensures { areas_read result ≡ areas_in self.now }
    {
        AreasRead {
            points: self.points,
            columns: self.columns,
            integers: self.integers,
            flags: self.flags,
            journal: self.journal,
            kept: self.kept,
            firsts: self.firsts,
        }
    }
}

impl<'a> AreasRead<'a> {
    pub fn lengths(&self) -> Lengths
        ensures { result ≡ lengths_of (areas_read self.now) }
    {
        Lengths {
            points: self.points.len(),
            columns: self.columns.len(),
            integers: self.integers.len(),
            flags: self.flags.len(),
            firsts: self.firsts,
        }
    }

    pub fn tested(&self) -> AreasTested<'a>
        ensures { TestedOf result (areas_read self.now) }
    {
        let AreasRead {
            points,
            columns,
            integers,
            flags,
            journal,
            kept,
            firsts,
        } = *self;
        AreasTested {
            points,
            columns: columns.len(),
            integers: integers.len(),
            flags: flags.len(),
            journal,
            kept,
            firsts,
        }
    }
}

impl<'a> AreasTested<'a> {
    pub fn lengths(&self) -> Lengths
        ensures { result ≡ lengths_tested self.now }
    {
        let AreasTested {
            points,
            columns,
            integers,
            flags,
            firsts,
            ..
        } = *self;
        Lengths {
            points: points.len(),
            columns,
            integers,
            flags,
            firsts,
        }
    }
}

// The code of what is told of the sum: 0 none, since an earlier refusal left the frame untested; 1 true, 2 switched off, 3 wrong.
pub fn sum_code(told: Option<Sum>) -> u8
    ensures { result ≡ sum_code told }
{
    match told {
        None => 0,
        Some(Sum::True) => 1,
        Some(Sum::SwitchedOff) => 2,
        Some(Sum::Wrong) => 3,
    }
}
