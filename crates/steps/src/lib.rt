// The calls, over a state by value and over one that is lent as bytes: each checks its place, puts its bytes into the lent buffer,
// and answers what is to be stored, which its caller stores.
// The laws in proofs/ say what the machine answers and leaves, by how far a call gets.
#![tactic(auto)]

ghost use Rattle.std.specs.Prelude.{◌≡◌, ◌<◌, ◌≤◌, length, IfOk};
ghost use Rattle.encoding.specs.Argument.{write_string};
ghost use Rattle.machine.specs.Machine.{accepted, config, container_code, counted, lacks_name, most_open, place_verdict, run};
ghost use Rattle.machine.specs.Call.{write, name, opening, closing, abandonment, version_marker, emptying};
ghost use Rattle.annotations.specs.Sids.{sids_of};
ghost use Rattle.steps.specs.Counted.{counted_cut};
ghost use Rattle.steps.specs.Heads.{headed, stepped, written_one, opened, closed, begun};
ghost use Rattle.steps.specs.Kinds.{kind_of};
ghost use Rattle.steps.specs.Start.{start_run};

use machine::{
    Container, LIST, LONGEST_BUFFER, MARKER, MOST_OPEN, Refusal, Refused, SEXP, STRUCT, State,
};
use place::{CallKind, PlaceCheck};
use values::{Text, WriteAsIon};

#[derive(Clone, Copy, Debug, PartialEq, Eq)]
pub enum ContainerType {
    List,
    Sexp,
    Struct,
}

// The type byte of a container.
impl From<ContainerType> for u8 {
    ghost from_gives = { λ kind code. code ≡ container_code (kind_of kind) };

    fn from(kind: ContainerType) -> u8 {
        match kind {
            ContainerType::List => LIST,
            ContainerType::Sexp => SEXP,
            ContainerType::Struct => STRUCT,
        }
    }
}

// A state without its records: what each accepted call stores.
#[derive(Clone, Copy)]
pub struct Head {
    pub used: usize,
    pub depth: usize,
    pub waiting: bool,
}

// What an accepted opening stores: the record lies below the head's depth.
#[derive(Clone, Copy)]
pub struct Opened {
    pub head: Head,
    pub container: Container,
}

// What an accepted closing stores and answers: the figures are those of machine's `Closed`.
#[derive(Clone, Copy)]
pub struct Closed {
    pub head: Head,
    pub size: usize,
    pub members: usize,
    pub moved: usize,
}

// A start: a version marker at the front of the lent buffer. Answers how many bytes are used.
pub fn start(buf: &mut [u8]) -> Result<usize, Refusal>
    ensures { begun result buf.new ≡ start_run buf.old }
{
    if LONGEST_BUFFER < buf.len() {
        return Err(Refusal::BufferTooLong);
    }
    buffer::copy(buf, 0, &MARKER).ok_or(Refusal::NoRoom)
}

// A scalar whose place is checked: it is put at the end of the used bytes, and the innermost container has a member more.
fn put<S: PlaceCheck, V: WriteAsIon>(
    s: &S,
    buf: &mut [u8],
    annotations: &[u8],
    value: V,
) -> Result<Head, Refusal>
    requires { let t = S.state s.now in accepted ≡ place_verdict t (length buf.old) (lacks_name t) }
    ensures call { let t = S.state s.now in
        written_one result t buf.new ≡ run (write (sids_of annotations.now) (V.argument value)) (config t buf.old) }
    ensures uncut { let cs = (S.state s.now).containers in IfOk result (λ h. counted_cut cs h.depth ≡ counted cs h.depth) }
{
    // By move: lent to the closure, a bool lies on the stack, and its call takes 114 instructions for 111.
    let put = values::write(buf, s.used(), annotations, value).ok_or_else(move || value.refusal())?;
    Ok(Head {
        used: s.used() + put,
        depth: s.depth(),
        waiting: false,
    })
}

// A scalar of any type.
pub fn write<S: PlaceCheck, V: WriteAsIon>(
    s: &S,
    buf: &mut [u8],
    annotations: &[u8],
    value: V,
) -> Result<Head, Refusal>
    ensures call { let t = S.state s.now in
        written_one result t buf.new ≡ run (write (sids_of annotations.now) (V.argument value)) (config t buf.old) }
    ensures uncut { let cs = (S.state s.now).containers in IfOk result (λ h. counted_cut cs h.depth ≡ counted cs h.depth) }
{
    s.check(buf.len(), CallKind::Value)?;
    put(s, buf, annotations, value)
}

// A string: its bytes are tested behind the checks of its place, so that a misplaced one costs nothing for its length.
pub fn write_string<S: PlaceCheck>(
    s: &S,
    buf: &mut [u8],
    annotations: &[u8],
    bytes: &[u8],
) -> Result<Head, Refusal>
    ensures call { let t = S.state s.now in
        written_one result t buf.new ≡ run (write (sids_of annotations.now) (write_string bytes.now)) (config t buf.old) }
    ensures uncut { let cs = (S.state s.now).containers in IfOk result (λ h. counted_cut cs h.depth ≡ counted cs h.depth) }
{
    s.check(buf.len(), CallKind::Value)?;
    put(s, buf, annotations, Text::new(bytes))
}

// A field name: its sid as a VarUInt.
pub fn field_name<S: PlaceCheck>(s: &S, buf: &mut [u8], sid: u64) -> Result<Head, Refusal>
    ensures { let t = S.state s.now in stepped result t buf.new ≡ run (name sid) (config t buf.old) }
{
    s.check(buf.len(), CallKind::Name)?;
    let put = var_uint::write(buf, s.used(), sid).ok_or(Refusal::NoRoom)?;
    Ok(Head {
        used: s.used() + put,
        depth: s.depth(),
        waiting: true,
    })
}

// An opening: it reserves two bytes for its header, and with annotations two more for the wrapper's before them.
pub fn open<S: PlaceCheck>(
    s: &S,
    buf: &mut [u8],
    annotations: &[u8],
    kind: ContainerType,
) -> Result<Opened, Refusal>
    ensures call { let t = S.state s.now in
        opened result t buf.new ≡ run (opening (sids_of annotations.now) (kind_of kind)) (config t buf.old) }
    ensures record { IfOk result (λ o. (0 < o.head.depth) × (o.head.depth ≤ most_open)) }
{
    s.check(buf.len(), CallKind::Value)?;
    let used = s.used();
    let depth = s.depth();
    if MOST_OPEN <= depth {
        return Err(Refusal::TooDeep);
    }
    let put = containers::open(buf, used, annotations).ok_or(Refusal::NoRoom)?;
    Ok(Opened {
        head: Head {
            used: used + put,
            depth: depth + 1,
            waiting: false,
        },
        container: Container {
            start: used,
            header: used + (put - 2),
            code: kind.into(),
            members: 0,
        },
    })
}

// A closing: the header, and the wrapper's, in their final form. The container is then a member of the one that it lies in.
pub fn close<S: PlaceCheck>(s: &S, buf: &mut [u8]) -> Result<Closed, Refusal>
    ensures call { let t = S.state s.now in closed result t buf.new ≡ run closing (config t buf.old) }
    ensures uncut { let cs = (S.state s.now).containers in
        IfOk result (λ c. counted_cut cs c.head.depth ≡ counted cs c.head.depth) }
{
    s.check(buf.len(), CallKind::Closing)?;
    let used = s.used();
    let outer = s.depth() - 1;
    let c = s.container(outer);
    let closing = containers::close(buf, used, c).ok_or(Refusal::NoRoom)?;
    Ok(Closed {
        head: Head {
            used: closing.used,
            depth: outer,
            waiting: false,
        },
        size: closing.used - c.start,
        members: c.members,
        moved: closing.moved,
    })
}

// An abandonment: the innermost container's bytes are given back, and a name before it waits again.
pub fn abandon<S: PlaceCheck>(s: &S, buf: &mut [u8]) -> Result<Head, Refusal>
    ensures { let t = S.state s.now in stepped result t buf.new ≡ run abandonment (config t buf.old) }
{
    s.check(buf.len(), CallKind::Abandonment)?;
    let used = s.used();
    let outer = s.depth() - 1;
    let c = s.container(outer);
    containers::abandon(buf, used, c.start);
    Ok(Head {
        used: c.start,
        depth: outer,
        waiting: place::in_struct(s, outer),
    })
}

// A version marker: E0 01 00 EA, at the place of the call.
pub fn version_marker<S: PlaceCheck>(s: &S, buf: &mut [u8]) -> Result<Head, Refusal>
    ensures { let t = S.state s.now in stepped result t buf.new ≡ run version_marker (config t buf.old) }
{
    s.check(buf.len(), CallKind::Top)?;
    let put = buffer::copy(buf, s.used(), &MARKER).ok_or(Refusal::NoRoom)?;
    Ok(Head {
        used: s.used() + put,
        depth: s.depth(),
        waiting: s.waits(),
    })
}

// An emptying: the used length becomes zero, and no byte alters.
pub fn empty<S: PlaceCheck>(s: &S, buf: &[u8]) -> Result<Head, Refusal>
    ensures { let t = S.state s.now in stepped result t buf.now ≡ run emptying (config t buf.now) }
{
    s.check(buf.len(), CallKind::Top)?;
    Ok(Head {
        used: 0,
        depth: s.depth(),
        waiting: s.waits(),
    })
}

// A refused call hands a state by value back as it was given.
pub fn refused(s: State, why: Refusal) -> Refused
    ensures { result ≡ record { why = why; state = s } }
{
    Refused { why, state: s }
}

// The state by value with another head: the records are as they were.
pub fn with_head(s: State, head: Head) -> State
    ensures { result ≡ headed head s.containers }
{
    State {
        used: head.used,
        depth: head.depth,
        waiting: head.waiting,
        ..s
    }
}

// The innermost of the first `depth` containers with one member more; with none open the state is as it was.
pub fn counted(s: State, depth: usize) -> State
    ensures { result ≡ record { used = s.used; depth = s.depth; waiting = s.waiting; containers = counted_cut s.containers depth } }
{
    if depth == 0 {
        return s;
    }
    if MOST_OPEN < depth {
        return s;
    }
    let c = s.containers[depth - 1];
    let mut next = s;
    next.containers[depth - 1] = Container {
        members: c.members.wrapping_add(1),
        ..c
    };
    next
}
