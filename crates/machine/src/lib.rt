// The writer's state, by value, and what a call answers. What each call does to the state and to the lent buffer is defined in specs/.
#![tactic(auto)]

ghost use Rattle.std.specs.Prelude.{◌≡◌};
ghost use Rattle.machine.specs.Machine.{empty_state};
ghost use Rattle.machine.specs.Numbers.{number};

// Check 1: a longer buffer is refused.
pub const LONGEST_BUFFER: usize = 16_777_215;

// Check 4: an opening with as many open is refused.
pub const MOST_OPEN: usize = 32;

// The type codes of containers, as the header has them: the bytes of the format, named once.
pub const LIST: u8 = 0xB0;

pub const SEXP: u8 = 0xC0;

pub const STRUCT: u8 = 0xD0;

// A version marker.
pub const MARKER: [u8; 4] = [0xE0, 0x01, 0x00, 0xEA];

// An open container: where it starts, where the reserve of its header lies, its type code (B0 for a list, C0 for an s-expression, D0 for a struct),
// and how many direct members it has; a struct counts its name and value pairs.
// Without annotations the header lies at the start; with them it lies behind the wrapper's reserve and the annotations.
// The code is a number and no enum: a state that is handed in may hold any, and check 2 refuses the others.
#[derive(Clone, Copy, Debug, PartialEq, Eq)]
pub struct Container {
    pub start: usize,
    pub header: usize,
    pub code: u8,
    pub members: usize,
}

impl Container {
    // A record that means nothing.
    pub const EMPTY: Container = Container {
        start: 0,
        header: 0,
        code: 0,
        members: 0,
    };
}

// The used length of the lent buffer, how many containers are open, whether a field name waits for its value, and the containers, outermost first.
// The records from `depth` on mean nothing. It is an array with its count: the state goes by value in fixed memory, and there is no heap.
#[derive(Clone, Copy)]
pub struct State {
    pub used: usize,
    pub depth: usize,
    pub waiting: bool,
    pub containers: [Container; MOST_OPEN],
}

impl State {
    // No container is open, and no name waits.
    pub fn empty(used: usize) -> State
        ensures { result ≡ empty_state used }
    {
        State {
            used,
            depth: 0,
            waiting: false,
            containers: [Container::EMPTY; MOST_OPEN],
        }
    }
}

// Why a call is refused: the lines of the table "Checks by place". The definition `number` gives each its number.
#[derive(Clone, Copy, Debug, PartialEq, Eq)]
pub enum Refusal {
    BufferTooLong,
    StateUnfit,
    Misplaced,
    TooDeep,
    NegativeZero,
    NotUtf8,
    BadTimestamp,
    DecimalTooLong,
    NoRoom,
}

impl From<Refusal> for u8 {
    ghost from_gives = { λ why n. n ≡ number why };

    fn from(why: Refusal) -> u8 {
        match why {
            Refusal::BufferTooLong => 1,
            Refusal::StateUnfit => 2,
            Refusal::Misplaced => 3,
            Refusal::TooDeep => 4,
            Refusal::NegativeZero => 5,
            Refusal::NotUtf8 => 6,
            Refusal::BadTimestamp => 7,
            Refusal::DecimalTooLong => 8,
            Refusal::NoRoom => 10,
        }
    }
}

// What a refused call answers: why, and the state to hand to the next call, which is the one given, and for a start the empty one.
#[derive(Clone, Copy)]
pub struct Refused {
    pub why: Refusal,
    pub state: State,
}

// What an accepted closing answers: the state to hand to the next call, how many bytes the closed container takes, headers and annotations counted,
// how many members it has, and how many bytes moved: the body's, if the body moved, and the annotations', if these moved.
#[derive(Clone, Copy)]
pub struct Closed {
    pub state: State,
    pub size: usize,
    pub members: usize,
    pub moved: usize,
}
