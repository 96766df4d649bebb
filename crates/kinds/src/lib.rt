// Kinds of numbered things, as values (document 01, "The areas" and "Journal"; document 02, a).
#![tactic(auto)]

ghost use Rattle.std.specs.Prelude.{◌≡◌, ◌+◌, ◌*◌, ◌<◌, ◌≤◌, ◌^◌, length};
ghost use Rattle.kinds.specs.Kinds.{points_of, columns_of, integers_of, flags_of, kind_of, held_in, holds, place_of, run_of};

// A kind of numbered thing: its journal tag, first number, bytes for each, how many are held, how many an entry may name. The tag is a byte and
// no enum: an entry's first byte may be any, and `Held::kind` answers at each.
#[derive(Clone, Copy, Debug, PartialEq, Eq)]
pub struct Kind {
    pub tag: u8,
    pub first: usize,
    pub unit: usize,
    pub held: usize,
    pub most: usize,
}

// The settings that number variables: that of the first integer, and that of the first flag.
#[derive(Clone, Copy, Debug, PartialEq, Eq)]
pub struct Firsts {
    pub integer: u16,
    pub flag: u16,
}

// A run: so many neighbouring numbers of one kind.
#[derive(Clone, Copy, Debug, PartialEq, Eq)]
pub struct Run {
    pub kind: Kind,
    pub start: usize,
    pub count: usize,
}

// What the board holds: how many points, and the first numbers of variables.
#[derive(Clone, Copy, Debug, PartialEq, Eq)]
pub struct Held {
    pub points: usize,
    pub firsts: Firsts,
}

// The lengths of the areas that things are held in, and the first numbers: all that the tests ask of them.
#[derive(Clone, Copy, Debug, PartialEq, Eq)]
pub struct Lengths {
    pub points: usize,
    pub columns: usize,
    pub integers: usize,
    pub flags: usize,
    pub firsts: Firsts,
}

// What a board with areas of these lengths holds.
pub fn held_in(lengths: Lengths) -> Held
    ensures { result ≡ held_in lengths }
{
    Held {
        points: lengths.points / 40,
        firsts: lengths.firsts,
    }
}

impl Held {
    // Points 1 to N, a slot of 40 bytes each.
    fn points(self) -> Kind
        ensures { result ≡ points_of self }
    {
        Kind {
            tag: Kind::POINTS,
            first: 1,
            unit: 40,
            held: self.points,
            most: self.points,
        }
    }

    // Integer variables, four bytes each, from the first number on.
    fn integers(self) -> Kind
        ensures { result ≡ integers_of self }
    {
        Kind {
            tag: Kind::INTEGERS,
            first: usize::from(self.firsts.integer),
            unit: 4,
            held: 100,
            most: 100,
        }
    }

    // Flags, one byte each, from the first number on; a write names one.
    fn flags(self) -> Kind
        ensures { result ≡ flags_of self }
    {
        Kind {
            tag: Kind::FLAGS,
            first: usize::from(self.firsts.flag),
            unit: 1,
            held: 300,
            most: 1,
        }
    }

    // The kind of a tag; of another tag nothing is held.
    #[tactic(auto, unfolding(crate::specs::Kinds::kind_of))]
    pub fn kind(self, tag: u8) -> Kind
        ensures { result ≡ kind_of self tag }
    {
        match tag {
            Kind::POINTS => self.points(),
            Kind::COLUMNS => Kind::columns(),
            Kind::INTEGERS => self.integers(),
            Kind::FLAGS => self.flags(),
            _ => Kind {
                tag,
                first: 0,
                unit: 1,
                held: 0,
                most: 0,
            },
        }
    }
}

impl Kind {
    // The journal tags.
    pub const POINTS: u8 = 0x50;

    pub const COLUMNS: u8 = 0x53;

    pub const INTEGERS: u8 = 0x49;

    pub const FLAGS: u8 = 0x46;

    // String columns 300 to 999, one byte each.
    fn columns() -> Kind
        ensures { result ≡ columns_of }
    {
        Kind {
            tag: Kind::COLUMNS,
            first: 300,
            unit: 1,
            held: 700,
            most: 255,
        }
    }

    // Every number from start to start + count - 1 is held.
    #[tactic(auto, unfolding(crate::specs::Kinds::holds))]
    pub fn has(self, start: usize, count: usize) -> bool
        requires { (start < 65536) × (count < 65536) × (self.first + self.held ≤ 65536) }
        ensures { result ≡ holds self start count }
    {
        self.first <= start && start + count <= self.first + self.held
    }

    // Where a number stands in its area.
    pub fn place(self, start: usize) -> usize
        requires { (self.first ≤ start) × (place_of self start < 2 ^ 63) }
        ensures { result ≡ place_of self start }
    {
        (start - self.first) * self.unit
    }
}

impl Run {
    // Where its first number stands in the area of its kind.
    pub fn at(self) -> usize
        requires { (self.kind.first ≤ self.start) × (place_of self.kind self.start < 2 ^ 63) }
        ensures { result ≡ place_of self.kind self.start }
    {
        self.kind.place(self.start)
    }

    // How many bytes it has.
    pub fn size(self) -> usize
        requires { self.count * self.kind.unit < 2 ^ 63 }
        ensures { result ≡ self.count * self.kind.unit }
    {
        self.count * self.kind.unit
    }

    // The part of its area where it stands.
    #[tactic(auto, unfolding(crate::specs::Kinds::run_of))]
    pub fn part(self, area: &[u8]) -> &[u8]
        requires { (self.kind.first ≤ self.start) × (place_of self.kind self.start + self.count * self.kind.unit ≤ length area.now) }
        ensures value { result.now ≡ run_of self.kind self.start self.count area.now }
        ensures long { length result.now ≡ self.count * self.kind.unit }
    {
        let at = self.at();
        &area[at..at + self.size()]
    }
}
