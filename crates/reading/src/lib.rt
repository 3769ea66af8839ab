// What a reader answers, by value, and what holds an item. What it answers when is defined in specs/; here only a refusal's number and the holder inside a container are computed.
#![tactic(auto)]

ghost use Rattle.std.specs.Prelude.{◌≡◌, ◌+◌, ◌%◌};
ghost use Rattle.reading.specs.Refusals.{number};

pub mod codes;

// Containers that may be open at once.
pub const MOST_OPEN: u8 = 32;

// Why a reader stops (document 02, Item 1). The definition `number` gives each its number.
#[derive(Clone, Copy, Debug, PartialEq, Eq)]
pub enum Refusal {
    PastTheEnd,
    TooDeep,
    NotIon,
    CutShort,
}

impl From<Refusal> for u8 {
    ghost from_gives = { λ refusal n. n ≡ number refusal };

    fn from(refusal: Refusal) -> u8 {
        match refusal {
            Refusal::PastTheEnd => 2,
            Refusal::TooDeep => 4,
            Refusal::NotIon => 13,
            Refusal::CutShort => 14,
        }
    }
}

// A VarUInt and the place behind it.
#[derive(Clone, Copy, Debug, PartialEq, Eq)]
pub struct Number {
    pub value: u64,
    pub next: usize,
}

// The name of an item, none where its holder's items have no names, and the place behind it.
#[derive(Clone, Copy, Debug, PartialEq, Eq)]
pub struct Name {
    pub value: Option<u64>,
    pub next: usize,
}

// A type byte, and where its body starts and stops.
#[derive(Clone, Copy, Debug, PartialEq, Eq)]
pub struct Header {
    pub kind: u8,
    pub start: usize,
    pub stop: usize,
}

// Where the sids of a wrapper start and stop, and the header of the value that it wraps.
// A value without wrapper has no sids: they start and stop with its body.
#[derive(Clone, Copy, Debug, PartialEq, Eq)]
pub struct Wrapped {
    pub sids: usize,
    pub sids_end: usize,
    pub header: Header,
}

// What stands at a place: its name, in a struct, and behind that its annotations' sids, its type byte and its body. The next item stands where the
// body stops. A NOP pad has a type byte below 0F; a version marker has E0 and no body.
#[derive(Clone, Copy, Debug, PartialEq, Eq)]
pub struct Item {
    pub name: Option<u64>,
    pub held: Wrapped,
}

// What holds items: its type byte (0 for the stream itself), the least name that may follow in it, and how many containers are open.
#[derive(Clone, Copy, Debug, PartialEq, Eq)]
pub struct Holder {
    pub kind: u8,
    pub least: u64,
    pub depth: u8,
}

impl Holder {
    // The stream itself: no container has its type byte, and nothing is open.
    pub const STREAM: Holder = Holder {
        kind: 0,
        least: 0,
        depth: 0,
    };

    // A container of this type byte that stands in it. C may give any depth, so the sum wraps; a container is entered only where fewer than 32 are open.
    pub fn inside(self, kind: u8) -> Holder
        ensures { (result.kind ≡ kind) × ((result.least ≡ 0) × (result.depth ≡ (self.depth + 1) % 256)) }
    {
        Holder {
            kind,
            least: 0,
            depth: self.depth.wrapping_add(1),
        }
    }
}

// Where a walk stopped: at an item that it does not read, by its place.
#[derive(Clone, Copy, Debug, PartialEq, Eq)]
pub struct Stopped {
    pub refusal: Refusal,
    pub place: usize,
}

// One item and all that it holds: the place behind it and the least name that may follow.
#[derive(Clone, Copy, Debug, PartialEq, Eq)]
pub struct Passed {
    pub next: usize,
    pub least: u64,
}

// A decimal's body: the exponent, as a sign and a magnitude, and where in the body the coefficient starts, an Int.
#[derive(Clone, Copy, Debug, PartialEq, Eq)]
pub struct Decimal {
    pub negative: bool,
    pub exponent: u64,
    pub coefficient: usize,
}

// A timestamp's known offset: its sign and minutes.
#[derive(Clone, Copy, Debug, PartialEq, Eq)]
pub struct Offset {
    pub negative: bool,
    pub minutes: u64,
}

// How many UTC fields a timestamp has, from the year down, and the fields, 0 where there is none, as C is given it.
// The count is a number, and no enum of precisions: one to six fields stand in a body, four of them too, an hour without minute, before they are refused.
#[derive(Clone, Copy, Debug, PartialEq, Eq)]
pub struct Fields {
    pub count: u8,
    pub year: u64,
    pub month: u64,
    pub day: u64,
    pub hour: u64,
    pub minute: u64,
    pub second: u64,
}

// How many digits the seconds' fraction has, and where in the body their coefficient starts, an Int.
#[derive(Clone, Copy, Debug, PartialEq, Eq)]
pub struct Fraction {
    pub digits: u64,
    pub coefficient: usize,
}

// A timestamp's body: the offset, none where it is unknown, the fields, and the fraction where there is one.
#[derive(Clone, Copy, Debug, PartialEq, Eq)]
pub struct Timestamp {
    pub offset: Option<Offset>,
    pub fields: Fields,
    pub fraction: Option<Fraction>,
}

// What the reader shows of a timestamp's body: the timestamp, and beside it the out-of-calendar mark (document 02, Item 2).
// The mark says something of the timestamp, and not whether there is one.
#[derive(Clone, Copy, Debug, PartialEq, Eq)]
pub struct Shown {
    pub timestamp: Timestamp,
    pub marked: bool,
}
