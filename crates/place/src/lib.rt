// The checks 1 to 3 of the table "Checks by place", by the state and the length of the buffer that is lent with it.
// They hold for any state that anyone can hand in, by value or as lent bytes.
#![tactic(auto)]

ghost use Rattle.std.specs.Prelude.{◌≡◌, get_or};
ghost use Rattle.machine.specs.declared.State.{State};
ghost use Rattle.machine.specs.Machine.{no_container, innermost_first, in_struct, container_fits, containers_fit, fits, place_verdict, finished_length};
ghost use Rattle.machine.specs.Numbers.{verdict_of};
ghost use Rattle.place.specs.Misplaced.{misplaced_where, misplaced};

use machine::{Container, LIST, LONGEST_BUFFER, MOST_OPEN, Refusal, SEXP, STRUCT, State};

// What line 3 tells apart: a scalar or an opening, a field name, a closing, an abandonment, and a version marker or an emptying.
#[derive(Clone, Copy, Debug, PartialEq, Eq)]
pub enum CallKind {
    Value,
    Name,
    Closing,
    Abandonment,
    Top,
}

impl CallKind {
    // Whether line 3 fails, where a container is open or not, the innermost is a struct or not, and a name waits or not.
    pub fn is_misplaced(self, any_open: bool, in_struct: bool, waits: bool) -> bool
        ensures { result ≡ misplaced_where self any_open in_struct waits }
    {
        match self {
            CallKind::Value => in_struct & !waits,
            CallKind::Name => !in_struct | waits,
            CallKind::Closing => !any_open | waits,
            CallKind::Abandonment => !any_open,
            CallKind::Top => any_open,
        }
    }
}

// What the checks ask of a state. `state` is the state that stands behind the answers.
pub trait Standing {
    ghost state: { Self → State };

    // The used length.
    fn used(&self) -> usize
        ensures { result ≡ (state self.now).used };

    // How many containers are open.
    fn depth(&self) -> usize
        ensures { result ≡ (state self.now).depth };

    // Whether a name waits.
    fn waits(&self) -> bool
        ensures { result ≡ (state self.now).waiting };

    // The container i of the array; past its end one of zeros, as the definition has it (get_or).
    fn container(&self, i: usize) -> Container
        ensures { result ≡ get_or (state self.now).containers i no_container };
}

impl Standing for State {
    ghost state = { λ s. s };

    fn used(&self) -> usize {
        self.used
    }

    fn depth(&self) -> usize {
        self.depth
    }

    fn waits(&self) -> bool {
        self.waiting
    }

    fn container(&self, i: usize) -> Container {
        self.containers.get(i).copied().unwrap_or(Container::EMPTY)
    }
}

// A container by itself, with what follows it starting at `limit`. Differences are tested, so that no sum wraps.
pub fn container_fits(c: Container, limit: usize) -> bool
    ensures { result ≡ container_fits limit c }
{
    let code = c.code;
    let start = c.start;
    let header = c.header;
    if header < start {
        return false;
    }
    if limit < header {
        return false;
    }
    let beyond = header - start;
    let held = limit - header;
    if held < 2 {
        return false;
    }
    ((code == LIST) | (code == SEXP) | (code == STRUCT))
        & ((beyond == 0) | (4 <= beyond))
        & (c.members <= held - 2)
}

// Whether the container below `depth` is a struct.
pub fn in_struct<S: Standing>(s: &S, depth: usize) -> bool
    ensures { result ≡ in_struct (innermost_first (S.state s.now).containers depth) }
{
    0 < depth && s.container(depth - 1).code == STRUCT
}

// From the innermost container outwards: each has to end before the next begins. By place: a state gives its containers by their place.
fn containers_fit<S: Standing>(s: &S, used: usize, depth: usize) -> bool
    ensures { result ≡ containers_fit used (innermost_first (S.state s.now).containers depth) }
{
    let mut limit = used;
    for i in (0..depth).rev() {
        let c = s.container(i);
        if !container_fits(c, limit) {
            return false;
        }
        limit = c.start;
    }
    true
}

// Line 2: whether the state fits.
pub fn state_fits<S: Standing>(s: &S, room: usize) -> bool
    ensures { result ≡ fits (S.state s.now) room }
{
    let used = s.used();
    let depth = s.depth();
    if room < used {
        return false;
    }
    if MOST_OPEN < depth {
        return false;
    }
    if s.waits() & !in_struct(s, depth) {
        return false;
    }
    containers_fit(s, used, depth)
}

// The first of the lines 1 to 3 that fails. In line, so that what a call has asked of its state is not asked again for its refusal.
#[inline(always)]
pub fn check<S: Standing>(s: &S, room: usize, call: CallKind) -> Result<(), Refusal>
    ensures { verdict_of result ≡ place_verdict (S.state s.now) room (misplaced call (S.state s.now)) }
{
    if LONGEST_BUFFER < room {
        return Err(Refusal::BufferTooLong);
    }
    if !state_fits(s, room) {
        return Err(Refusal::StateUnfit);
    }
    let depth = s.depth();
    if call.is_misplaced(depth != 0, in_struct(s, depth), s.waits()) {
        return Err(Refusal::Misplaced);
    }
    Ok(())
}

// What holds a state, and checks a call's place in the way that is fast for it.
pub trait PlaceCheck: Standing {
    // The first of the lines 1 to 3 that fails.
    fn check(&self, room: usize, call: CallKind) -> Result<(), Refusal>
        ensures { verdict_of result ≡ place_verdict (Self.state self.now) room (misplaced call (Self.state self.now)) };
}

impl PlaceCheck for State {
    fn check(&self, room: usize, call: CallKind) -> Result<(), Refusal> {
        check(self, room, call)
    }
}

// How many bytes from the buffer's front are finished: 0 where a taking hands back document 01's empty part.
pub fn finished_length<S: Standing>(s: &S, room: usize) -> usize
    ensures { result ≡ finished_length (S.state s.now) room }
{
    if check(s, room, CallKind::Top).is_err() | s.waits() {
        return 0;
    }
    s.used()
}
